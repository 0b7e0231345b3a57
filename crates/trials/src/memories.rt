// The three kinds of memory.
use byte_memory::ByteTable;
use memory::Memory;
use memory::word_table::WordTable;
use store::last_level::LastLevelStore;

/// The numbers of the refusals that reading from a line and storing to it answer, if both do.
fn refusals<M: Memory>(memory: &mut M, line: usize) -> Option<(u8, u8)> {
    let read = memory.read(line).err()?;
    let stored = memory.store(line, 1).err()?;
    Some((read.number(), stored.number()))
}

#[test]
fn memories_have_their_kinds(rt: HostRuntime) {
    assert!(rt; <WordTable as Memory>::KIND.number() == 1);
    assert!(rt; <ByteTable as Memory>::KIND.number() == 2);
    assert!(rt; <LastLevelStore<WordTable> as Memory>::KIND.number() == 3);
}

#[test]
fn word_table_stores_into_the_table(rt: HostRuntime) {
    let mut words = [10, 11, 12];
    let mut memory = WordTable::over(&mut words);
    assert!(rt; memory.store(2, 99) == Ok(()));
    assert!(rt; memory.read(2) == Ok(99));
    assert!(rt; memory.read(1) == Ok(11));
    assert!(rt; refusals(&mut memory, 3) == Some((9, 9)));
    assert!(rt; memory.count() == 3);
    assert!(rt; words == [10, 11, 99]);
}

#[test]
fn byte_table_stores_the_highest_byte_first(rt: HostRuntime) {
    let mut bytes = [7; 18];
    let mut memory = ByteTable::over(&mut bytes);
    assert!(rt; memory.store(1, 0x0102_0304_0506_0708) == Ok(()));
    assert!(rt; memory.read(1) == Ok(0x0102_0304_0506_0708));
    assert!(rt; refusals(&mut memory, 2) == Some((9, 9)));
    assert!(rt; memory.count() == 2);
    assert!(rt; bytes == [7, 7, 7, 7, 7, 7, 7, 7, 1, 2, 3, 4, 5, 6, 7, 8, 7, 7]);
}

#[test]
fn store_keeps_a_word_until_it_is_displaced(rt: HostRuntime) {
    let mut words = [0; 32];
    let mut memory = LastLevelStore::over(WordTable::over(&mut words));
    assert!(rt; memory.store(5, 50) == Ok(()));
    assert!(rt; memory.store(5, 51) == Ok(()));
    assert!(rt; memory.store(21, 210) == Ok(()));
    assert!(rt; memory.read(5) == Ok(51));
    assert!(rt; memory.read(21) == Ok(210));
    assert!(rt; refusals(&mut memory, 32) == Some((9, 9)));
    drop(memory);
    // Line 21 has displaced line 5, and is held itself.
    assert!(rt; (words[5], words[21]) == (51, 0));
}

#[test]
fn cleaning_stores_every_held_word(rt: HostRuntime) {
    let mut words = [0; 32];
    let mut memory = LastLevelStore::over(WordTable::over(&mut words));
    assert!(rt; memory.store(0, 1) == Ok(()));
    assert!(rt; memory.store(31, 2) == Ok(()));
    assert!(rt; memory.store(16, 3) == Ok(()));
    assert!(rt; memory.clean() == 2);
    assert!(rt; memory.clean() == 0);
    assert!(rt; memory.read(16) == Ok(3));
    drop(memory);
    assert!(rt; (words[0], words[16], words[31]) == (1, 3, 2));
}
