// What a memory is, and the memory that lies in a caller's table of words.
#![tactic(auto)]

ghost use Rattle.std.specs.Prelude.{◌≡◌, ℕ, ◌≤◌, List, length};
ghost use Rattle.memory.specs.Words.{reading, storing, stored};
ghost use Rattle.setup.specs.Refusals.{numbered};

use setup::kind::Kind;
use setup::refusal::Refusal;

pub mod word_table;

/// A memory by its meaning, the list of its words. Refused are just the lines that it does not have; a
/// refusal leaves the memory as it was, to the last bit of its representation.
pub trait Memory {
    /// The number of this kind of memory.
    const KIND: Kind;

    ghost kind: { ℕ };

    ghost words: { Self → List ℕ };

    // Each impl answers its `KIND`. One body here for all was tried: it needs the constant tied to a ghost
    // member of its name, which the checker refuses where an impl has a lifetime.
    fn kind_number(&self) -> Kind
        ensures { result ≡ kind };

    fn count(&self) -> usize
        ensures { result ≡ length (words self.now) };

    fn read(&mut self, line: usize) -> Result<u64, Refusal>
        ensures value { numbered result ≡ reading (words self.old) line }
        ensures same { words self.new ≡ words self.old }
        ensures refused { length (words self.old) ≤ line → self.new ≡ self.old };

    fn store(&mut self, line: usize, word: u64) -> Result<(), Refusal>
        ensures value { numbered result ≡ storing (words self.old) line }
        ensures after { words self.new ≡ stored (words self.old) line word }
        ensures refused { length (words self.old) ≤ line → self.new ≡ self.old };
}
