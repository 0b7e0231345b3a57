// The lines of a listing, and writing one into a caller's buffer.
ghost use Rattle.std.specs.Prelude.{◌≡◌, ◌+◌, ◌<◌, ◌≤◌, ◌∷◌, ◌++◌, true, length, take, is_ok, IfOk};
ghost use Rattle.arrayvec.specs.ArrayString.{array_string_len};
ghost use Rattle.listing.specs.Lines.{text, hub_text, no_text, answer, after};
ghost use Rattle.setup.specs.Refusals.{number, numbered};

use arrayvec::ArrayString;
use itoa::{Buffer, Integer};
use setup::cycles::Cycles;
use setup::refusal::Refusal;
use setup::slots::Slots;

/// What the head line of a listing tells of a hub.
#[derive(Clone, Copy, Debug, PartialEq, Eq, Hash)]
pub struct HubLine {
    pub cores: u8,
    pub critical: u8,
    /// The lines that the hub serves: as many as the set-up says and the memory has.
    pub lines: u8,
    pub width: u16,
    /// The kind numbers of memory and policy.
    // Numbers, and no `Kind`: that would be narrower, and a line has been written for any number.
    pub memory: u8,
    pub policy: u8,
    /// The bound of a critical wait.
    pub bound: Slots,
    pub cycles: Cycles,
}

/// The bytes that every line fits.
const ROOM: usize = 64;

// The answer is a length beside the buffer, since the buffer is the caller's and keeps what stands behind.
/// Writes the line of a hub, or of a refusal, to the front of the buffer, and answers its length. The
/// bytes after it stay as they were, and all of them where the buffer has fewer than 64.
pub fn write_line(out: &mut [u8], line: Result<HubLine, Refusal>) -> Result<usize, Refusal>
    ensures value { numbered result ≡ answer out.old (text (numbered line)) }
    ensures after { out.new ≡ after out.old (text (numbered line)) }
    ensures placed { IfOk result (λ n. (n ≤ 64) × (n ≤ length out.new) × (take n out.new ≡ text (numbered line))) }
    ensures succeeds { 64 ≤ length out.old → is_ok result ≡ true }
{
    if out.len() < ROOM {
        return Err(Refusal::ShortBuffer);
    }
    let text = line_text(line);
    let n = text.len();
    out[..n].copy_from_slice(text.as_bytes());
    Ok(n)
}

// Not by `write!`, since no clause says that a `write!` into enough room succeeds.
fn line_text(line: Result<HubLine, Refusal>) -> ArrayString<ROOM>
    ensures { result.bytes ≡ text (numbered line) }
{
    match line {
        Ok(hub) => hub_text(hub),
        Err(refusal) => no_text(refusal),
    }
}

fn hub_text(hub: HubLine) -> ArrayString<ROOM>
    ensures { result.bytes ≡ hub_text hub }
{
    let mut text = ArrayString::new();
    text.push_str("HUB");
    push_number(&mut text, hub.cores);
    push_number(&mut text, hub.critical);
    push_number(&mut text, hub.lines);
    push_number(&mut text, hub.width);
    push_number(&mut text, hub.memory);
    push_number(&mut text, hub.policy);
    push_number(&mut text, hub.bound.count());
    push_number(&mut text, hub.cycles.count());
    text.push_str("\n");
    text
}

fn no_text(refusal: Refusal) -> ArrayString<ROOM>
    ensures { result.bytes ≡ no_text (number refusal) }
{
    let mut text = ArrayString::new();
    text.push_str("NO");
    push_number(&mut text, refusal.number());
    text.push_str("\n");
    text
}

/// Appends a space and the number, for whose longest text there is room.
fn push_number<I: Integer>(line: &mut ArrayString<ROOM>, number: I)
    requires { array_string_len line.old + I.MAX_STR_LEN < ROOM }
    ensures bytes { line.new.bytes ≡ line.old.bytes ++ 32 ∷ I.text number }
    ensures len { array_string_len line.new ≤ array_string_len line.old + 1 + I.MAX_STR_LEN }
{
    line.push_str(" ");
    line.push_str(Buffer::new().format(number));
}
