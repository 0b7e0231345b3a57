// Memory kind 1: the caller's table of words.
ghost use Rattle.std.specs.Prelude.{◌≡◌, ◌≤◌, length, slice_get};
ghost use Rattle.memory.specs.Words.{reading, storing, stored};
ghost use Rattle.setup.specs.Refusals.{numbered};

use crate::Memory;
use setup::kind::Kind;
use setup::refusal::Refusal;

// No `impl Model`: it would hide which table this is, and contracts say that it stays the caller's.
#[derive(Debug, Drop)]
pub struct WordTable<'a> {
    table: &'a mut [u64],
}

impl<'a> WordTable<'a> {
    /// The memory whose words lie in the caller's table, all of them and as they stand.
    pub fn over(table: &'a mut [u64]) -> WordTable<'a>
        ensures kind { ⟦<Self as Memory>⟧.kind ≡ 1 }
        ensures words { ⟦<Self as Memory>⟧.words result ≡ table.old }
        ensures count { length (⟦<Self as Memory>⟧.words result) ≡ length table.old }
        ensures table { result.table ≡ table.entry }
    {
        WordTable { table }
    }

    /// The word of a line, if there is such a line.
    fn word(&self, line: usize) -> Option<u64>
        ensures { result ≡ slice_get self.now.table.now line }
    {
        self.table.get(line).copied()
    }
}

impl Memory for WordTable<'_> {
    const KIND: Kind = Kind { number: 1 };

    ghost kind = { 1 };

    ghost words = { λ m. m.table.now };

    // A body for each impl: the trait says why.
    fn kind_number(&self) -> Kind {
        <Self as Memory>::KIND
    }

    fn count(&self) -> usize {
        self.table.len()
    }

    fn read(&mut self, line: usize) -> Result<u64, Refusal>
        ensures value { numbered result ≡ reading self.old.table.now line }
        ensures kept { self.new ≡ self.old }
    {
        self.word(line).ok_or(Refusal::PastMemory)
    }

    fn store(&mut self, line: usize, word: u64) -> Result<(), Refusal>
        ensures value { numbered result ≡ storing self.old.table.now line }
        ensures after { self.new.table.now ≡ stored self.old.table.now line word }
        ensures refused { length self.old.table.now ≤ line → self.new ≡ self.old }
        ensures place { self.new.table.ghost_name ≡ self.old.table.ghost_name }
    {
        // By `get_mut` the proof did not close: what is written through `self.table` was not carried back.
        if line < self.table.len() {
            self.table[line] = word;
            Ok(())
        } else {
            Err(Refusal::PastMemory)
        }
    }
}
