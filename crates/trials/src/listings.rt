// From run files to listings.
use memory::word_table::WordTable;
use run::{print_listing, report};
use setup::refusal::Refusal;
use std::test::Fail;
use store::last_level::LastLevelStore;

// A head with every field at its largest.
const LARGEST: [u8; 14] = [
    0x1f, 8, 8, 32, 255, 255, 255, 255, 255, 255, 255, 255, 255, 255,
];

// The first line of a file's listing, on a memory of these words.
fn first_line<'a>(file: &[u8], words: &mut [u64], out: &'a mut [u8; 64]) -> &'a [u8] {
    let memory = LastLevelStore::over(WordTable::over(words));
    let n = report(file, &memory, out).unwrap();
    &out[..n]
}

#[test]
fn hub_has_no_more_lines_than_its_memory(rt: HostRuntime) {
    let mut out = [0; 64];
    let line = first_line(&[0], &mut [0; 3], &mut out);
    assert!(rt; line == b"HUB 4 2 3 50 3 1 11 550\n".as_slice());
}

#[test]
fn heads_that_are_cut(rt: HostRuntime) {
    // Cut before every byte; at 0 it is an empty file. n is a length, and no index of an element.
    for n in 0..LARGEST.len() {
        let mut out = [0; 64];
        let line = first_line(&LARGEST[..n], &mut [0; 32], &mut out);
        assert!(rt; line == b"NO 10\n".as_slice(), "cut before byte {n}");
    }
}

#[test]
fn files_at_the_limit_of_length(rt: HostRuntime) -> Result<(), Fail> {
    let file = vec![in rt.alloc(); 0; 65537]?;
    let mut out = [0; 64];
    let line = first_line(&file[..65536], &mut [0; 32], &mut out);
    assert!(rt; line == b"HUB 4 2 32 50 3 1 11 550\n".as_slice());
    let line = first_line(&file, &mut [0; 32], &mut out);
    assert!(rt; line == b"NO 10\n".as_slice());
    Ok(())
}

#[test]
fn short_buffer_is_refused_and_stays(rt: HostRuntime) {
    let mut words = [0; 32];
    let mut out = [7; 63];
    let refused = report(&[0], &WordTable::over(&mut words), &mut out).map_err(Refusal::number);
    assert!(rt; refused == Err(11));
    assert!(rt; out == [7; 63]);
}

#[test]
fn writer_with_too_little_room_fails(rt: HostRuntime) {
    // The line has 25 bytes.
    for (room, printed) in [(24, false), (25, true)] {
        let mut out = [0; 25];
        let mut writer = &mut out[..room];
        let answer = print_listing(&[0], &mut writer);
        assert!(rt; answer.is_ok() == printed);
        assert!(rt; b"HUB 4 2 32 50 3 1 11 550\n".starts_with(&out[..room]));
    }
}
