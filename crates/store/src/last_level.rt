// Sixteen places over a memory below; a line's number modulo 16 is that of its place. A place is taken
// by a store to a line, and the word that was there goes below.
ghost use Rattle.store.specs.Overlay.{Placed, AllBelow, held, words_sent};
ghost use Rattle.std.specs.Prelude.{◌≡◌, length};

use crate::place::{HeldWord, Place};
use memory::Memory;
use setup::kind::Kind;
use setup::refusal::Refusal;

// The prover does not know the value of an associated constant of a generic impl, so that it has
// this name besides, which the impl's methods read.
const LAST_LEVEL: Kind = Kind { number: 3 };

// No `impl Model`: it would hide the memory below and the places, of which contracts speak beside the meaning.
#[derive(Debug, Drop)]
pub struct LastLevelStore<M: Memory> {
    below: M,
    places: [Place; 16],
    ghost sixteen: { length places ≡ 16 },
    ghost fitting: { Placed places },
    ghost inside: { AllBelow (length (M.Memory.words below)) places },
}

/// Stores a place's word below, and answers how many words, 1 or 0, the memory below took.
fn send_below<M: Memory>(below: &mut M, place: Place) -> u32
    ensures value { result ≡ held (length (M.Memory.words below.old)) place }
    ensures below { M.Memory.words below.new ≡ words_sent (M.Memory.words below.old) place }
{
    match place {
        Some(held) => u32::from(below.store(held.line, held.word).is_ok()),
        None => 0,
    }
}

impl<M: Memory> LastLevelStore<M> {
    ghost use Rattle.std.specs.Prelude.{◌≡◌, length, replicate, count_by, is_some, None, slice_index_or};
    ghost use Rattle.store.specs.Meaning.{words_of, words_below};
    ghost use Rattle.store.specs.Overlay.{place_of, held_word, displaced, held_in};

    /// A store with all places free, which means what the memory below means.
    #[tactic(auto, using(crate::proofs::Laid::overlaid_free))]
    pub fn over(below: M) -> Self
        ensures kind { ⟦<Self as Memory>⟧.kind ≡ 3 }
        ensures words { ⟦<Self as Memory>⟧.words result ≡ M.Memory.words below }
        ensures count { length (⟦<Self as Memory>⟧.words result) ≡ length (M.Memory.words below) }
        ensures below { result.below ≡ below }
        ensures places { result.places ≡ replicate 16 None }
    {
        LastLevelStore {
            below,
            places: [None; 16],
        }
    }

    /// Sends all held words below, so that all places are free, and answers how many there were.
    #[tactic(auto, using(crate::proofs::Laid::held_in_all))]
    pub fn clean(&mut self) -> u32
        ensures value { result ≡ held_in (length (words_below M.Memory.words self.old)) self.old.places 16 }
        ensures all { result ≡ count_by is_some self.old.places }
        ensures meaning { words_of M.Memory.words self.new ≡ words_of M.Memory.words self.old }
        ensures below { words_below M.Memory.words self.new ≡ words_of M.Memory.words self.old }
        ensures places { self.new.places ≡ replicate 16 None }
    {
        let mut stored = 0u32;
        for place in self.places.iter_mut() {
            stored += send_below(&mut self.below, place.take());
        }
        stored
    }

    fn count_below(&self) -> usize
        ensures { result ≡ length (words_below M.Memory.words self.now) }
    {
        self.below.count()
    }

    /// The word that a line's place has of the line, if it does.
    fn held(&self, line: usize) -> Option<u64>
        ensures { result ≡ held_word (slice_index_or self.now.places (place_of line) None) line }
    {
        let place = self.places[line % 16];
        match place {
            Some(held) if held.line == line => Some(held.word),
            _ => None,
        }
    }

    /// Sends the word in a line's place below, unless it is the line's own.
    fn make_room(&mut self, line: usize)
        ensures below { words_below M.Memory.words self.new ≡ displaced (words_below M.Memory.words self.old) (slice_index_or self.old.places (place_of line) None) line }
        ensures places { self.new.places ≡ self.old.places }
    {
        if let Some(held) = self.places[line % 16]
            && held.line != line
        {
            let _ = self.below.store(held.line, held.word);
        }
    }
}

impl<M: Memory> Memory for LastLevelStore<M> {
    ghost use Rattle.std.specs.Prelude.{◌≡◌, ◌≤◌, length};
    ghost use Rattle.memory.specs.Words.{reading, storing, stored};
    ghost use Rattle.setup.specs.Refusals.{numbered};
    ghost use Rattle.store.specs.Meaning.{words_of, words_below};
    ghost use Rattle.store.specs.Overlay.{below_after, places_after};

    const KIND: Kind = LAST_LEVEL;

    ghost kind = { 3 };

    ghost words = { words_of M.Memory.words };

    // A body for each impl: the trait says why.
    fn kind_number(&self) -> Kind {
        LAST_LEVEL
    }

    #[tactic(auto, using(crate::proofs::Laid::length_overlaid))]
    fn count(&self) -> usize
        ensures value { result ≡ length (words_of M.Memory.words self.now) }
        ensures below { result ≡ length (words_below M.Memory.words self.now) }
    {
        self.count_below()
    }

    #[tactic(auto, using(crate::proofs::Laid::length_overlaid, crate::proofs::Laid::get_or_overlaid))]
    fn read(&mut self, line: usize) -> Result<u64, Refusal>
        ensures value { numbered result ≡ reading (words_of M.Memory.words self.old) line }
        ensures same { words_of M.Memory.words self.new ≡ words_of M.Memory.words self.old }
        ensures refused { length (words_of M.Memory.words self.old) ≤ line → self.new ≡ self.old }
        ensures below { words_below M.Memory.words self.new ≡ words_below M.Memory.words self.old }
        ensures places { self.new.places ≡ self.old.places }
    {
        if line >= self.count_below() {
            return Err(Refusal::PastMemory);
        }
        match self.held(line) {
            Some(word) => Ok(word),
            None => self.below.read(line),
        }
    }

    #[tactic(auto, using(crate::proofs::Laid::length_overlaid, crate::proofs::Laid::overlaid_stored))]
    fn store(&mut self, line: usize, word: u64) -> Result<(), Refusal>
        ensures value { numbered result ≡ storing (words_of M.Memory.words self.old) line }
        ensures after { words_of M.Memory.words self.new ≡ stored (words_of M.Memory.words self.old) line word }
        ensures refused { length (words_of M.Memory.words self.old) ≤ line → self.new ≡ self.old }
        ensures below { words_below M.Memory.words self.new ≡ below_after (words_below M.Memory.words self.old) self.old.places line }
        ensures places { self.new.places ≡ places_after (words_below M.Memory.words self.old) self.old.places line word }
    {
        if line >= self.count_below() {
            return Err(Refusal::PastMemory);
        }
        self.make_room(line);
        self.places[line % 16] = Some(HeldWord { line, word });
        Ok(())
    }
}
