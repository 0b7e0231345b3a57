// From the bytes of a run file to its listing. So far the listing is its first line: the hub that
// the file's head asks for, with the bound of a critical wait, or the refusal.
#![tactic(auto)]

ghost use Rattle.std.specs.Prelude.{◌≡◌, ◌≤◌, true, length, take, is_ok, IfOk, OnOk};
ghost use Rattle.std.specs.Io.KnownBytes.{Appends};
ghost use Rattle.listing.specs.Lines.{answer, after};
ghost use Rattle.run.specs.FirstLine.{hub_line, hub_of, first_line, listing_of};
ghost use Rattle.setup.specs.Limits.{KeepsLimits};
ghost use Rattle.setup.specs.Refusals.{numbered};

use listing::line::{HubLine, write_line};
use memory::Memory;
use memory::word_table::WordTable;
use policy::Policy;
use policy::fixed::Fixed;
use runfile::head::read_head;
use setup::checked::SetUp;
use setup::refusal::Refusal;
use std::io;
use std::io::Write;
use store::last_level::LastLevelStore;

/// Prints the file's listing, for a hub on a last-level store over 32 words. An error is the writer's,
/// and then the writer may have taken a part of the listing.
pub fn print_listing<W: Write>(file: &[u8], out: &mut W) -> io::Result<()>
    ensures { OnOk result (Appends (W.contents out.old) (W.contents out.new) (listing_of file.now)) }
{
    let mut words = [0; 32];
    let memory = LastLevelStore::over(WordTable::over(&mut words));
    let mut line = [0; 64];
    let n = report(file, &memory, &mut line).unwrap();
    out.write_all(&line[..n])
}

/// Writes the first line of the file's listing into the buffer, and answers its length. The hub would
/// stand on this memory, which is only looked at.
pub fn report<M: Memory>(file: &[u8], memory: &M, out: &mut [u8]) -> Result<usize, Refusal>
    ensures value { numbered result ≡ answer out.old (first_line file.now (length (M.Memory.words memory.now)) M.Memory.kind) }
    ensures after { out.new ≡ after out.old (first_line file.now (length (M.Memory.words memory.now)) M.Memory.kind) }
    ensures placed { IfOk result (λ n. (n ≤ length out.new) × (take n out.new ≡ first_line file.now (length (M.Memory.words memory.now)) M.Memory.kind)) }
    ensures succeeds { 64 ≤ length out.old → is_ok result ≡ true }
{
    write_line(out, hub_of(file, memory))
}

fn hub_of<M: Memory>(file: &[u8], memory: &M) -> Result<HubLine, Refusal>
    ensures { numbered result ≡ hub_of file.now (length (M.Memory.words memory.now)) M.Memory.kind }
{
    let (head, _) = read_head(file)?;
    let setup = SetUp::try_from(head.draft)?;
    let mut policy = Fixed::of(head.holds);
    Ok(describe(&setup, memory, &mut policy))
}

/// What a listing tells of a hub on this set-up, memory and policy.
pub fn describe<M: Memory, P: Policy>(setup: &SetUp, memory: &M, policy: &mut P) -> HubLine
    ensures value { result ≡ hub_line setup.now (length (M.Memory.words memory.now)) M.Memory.kind P.Policy.kind (P.Policy.timing policy.old).caps }
    ensures policy { P.Policy.timing policy.new ≡ P.Policy.timing policy.old }
    ensures checked { KeepsLimits setup.now }
{
    let lines = (setup.lines() as usize).min(memory.count());
    let bound = setup.bound(policy.caps());
    // Each `as` is proved to lose nothing.
    HubLine {
        cores: setup.cores() as u8,
        critical: setup.critical() as u8,
        lines: lines as u8,
        width: setup.width() as u16,
        memory: memory.kind_number().number(),
        policy: policy.kind_number().number(),
        bound,
        cycles: bound.cycles(setup),
    }
}
