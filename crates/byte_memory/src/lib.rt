// Memory kind 2: the caller's buffer of bytes, eight for a word, highest first.
#![tactic(auto)]

ghost use Rattle.std.specs.Prelude.{◌≡◌, ◌+◌, ◌*◌, ◌/◌, ◌<◌, ◌≤◌, length, slice_get};
ghost use Rattle.byte_memory.specs.Bytes.{eight, put_word, words};
ghost use Rattle.memory.specs.Words.{reading, storing, stored};
ghost use Rattle.setup.specs.Refusals.{numbered};

use memory::Memory;
use setup::kind::Kind;
use setup::refusal::Refusal;

// No `impl Model`: it would hide which buffer this is, and contracts say that it stays the caller's.
#[derive(Debug, Drop)]
pub struct ByteTable<'a> {
    bytes: &'a mut [u8],
}

/// The word that eight bytes say.
fn word_of(digits: &[u8; 8]) -> u64
    ensures { result ≡ eight digits.now 0 }
{
    u64::from_be_bytes(*digits)
}

// Not by `as_chunks_mut`, whose clauses do not say what the slice ends as.
fn put_word_at(bytes: &mut [u8], line: usize, word: u64)
    requires { 8 * line + 8 ≤ length bytes.old }
    ensures { bytes.new ≡ put_word bytes.old line word }
{
    let at = 8 * line;
    bytes[at..at + 8].copy_from_slice(&word.to_be_bytes());
}

impl<'a> ByteTable<'a> {
    /// The memory whose words lie in the caller's buffer. Up to seven bytes at its end belong to no word.
    pub fn over(bytes: &'a mut [u8]) -> ByteTable<'a>
        ensures kind { ⟦<Self as Memory>⟧.kind ≡ 2 }
        ensures words { ⟦<Self as Memory>⟧.words result ≡ words bytes.old }
        ensures bytes { result.bytes ≡ bytes.entry }
    {
        ByteTable { bytes }
    }

    /// The word of a line, if there is such a line.
    #[tactic(auto, using(crate::proofs::ByteWords::length_words, crate::proofs::ByteWords::word_got, std::proofs::lemmas::Option::slice_get_past))]
    fn word(&self, line: usize) -> Option<u64>
        ensures { result ≡ slice_get (words self.now.bytes.now) line }
    {
        let (words, _) = self.bytes.as_chunks::<8>();
        Some(word_of(words.get(line)?))
    }
}

impl Memory for ByteTable<'_> {
    const KIND: Kind = Kind { number: 2 };

    ghost kind = { 2 };

    ghost words = { λ m. words m.bytes.now };

    // A body for each impl: the trait says why.
    fn kind_number(&self) -> Kind {
        <Self as Memory>::KIND
    }

    #[tactic(auto, using(crate::proofs::ByteWords::length_words))]
    fn count(&self) -> usize
        ensures value { result ≡ length (words self.now.bytes.now) }
        ensures eighth { result ≡ length self.now.bytes.now / 8 }
    {
        self.bytes.len() / 8
    }

    fn read(&mut self, line: usize) -> Result<u64, Refusal>
        ensures value { numbered result ≡ reading (words self.old.bytes.now) line }
        ensures kept { self.new ≡ self.old }
    {
        self.word(line).ok_or(Refusal::PastMemory)
    }

    #[tactic(auto, using(crate::proofs::ByteWords::length_words, crate::proofs::ByteWords::words_put))]
    fn store(&mut self, line: usize, word: u64) -> Result<(), Refusal>
        ensures value { numbered result ≡ storing (words self.old.bytes.now) line }
        ensures after { words self.new.bytes.now ≡ stored (words self.old.bytes.now) line word }
        ensures refused { length (words self.old.bytes.now) ≤ line → self.new ≡ self.old }
        ensures bytes { line < length self.old.bytes.now / 8 → self.new.bytes.now ≡ put_word self.old.bytes.now line word }
        ensures place { self.new.bytes.ghost_name ≡ self.old.bytes.ghost_name }
    {
        if line < self.count() {
            put_word_at(self.bytes, line, word);
            Ok(())
        } else {
            Err(Refusal::PastMemory)
        }
    }
}
