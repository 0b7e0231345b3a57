// The head of a run file: the draft of a set-up and the four holds of the policy.
ghost use Rattle.std.specs.Prelude.{◌≡◌, ℕ, ◌≤◌, List, length, Ok};
ghost use Rattle.runfile.specs.Fields.{Reads, seen, stands, field};
ghost use Rattle.runfile.specs.Head.{against_of, holds_of, draft_of, head, reading, outcome};
ghost use Rattle.runfile.specs.Writing.{Fields, file_of, told};

use crate::reader::{Field, Reader};
use policy::holds::{Against, FourHolds};
use setup::draft::Draft;
use setup::refusal::Refusal;

#[derive(Clone, Copy, Debug, PartialEq, Eq, Hash)]
pub struct Head {
    pub draft: Draft,
    pub holds: FourHolds,
}

/// The most bytes that a run file may have.
const MOST_BYTES: usize = 65536;

// The fields in their order in the file. The four holds stand under one bit.
const CORES: Field<1> = Field { bit: 1, absent: 4 };

const CRITICAL: Field<1> = Field { bit: 2, absent: 2 };

const LINES: Field<1> = Field { bit: 4, absent: 32 };

const SLOT_WIDTH: Field<2> = Field { bit: 8, absent: 50 };

const HOLDS: u8 = 16;

/// The holds of a head that has none.
const ABSENT_HOLDS: FourHolds = FourHolds {
    critical: Against {
        critical: 4,
        noncritical: 8,
    },
    noncritical: Against {
        critical: 2,
        noncritical: 4,
    },
};

/// The lowest bit of the map byte that has no name.
const FIRST_UNNAMED: u8 = 32;

/// The head of a run file and the bytes after it, or the refusal of a file that cannot be read. A head
/// that was written field by field reads as what was written.
#[inline]
pub fn read_head(file: &[u8]) -> Result<(Head, &[u8]), Refusal>
    ensures value { outcome result ≡ reading file.now }
    ensures written { (f : Fields) (rest : List ℕ) → file.now ≡ file_of f rest → length file.now ≤ 65536 → outcome result ≡ Ok (told f, rest) }
{
    head_of(file)
}

// The value alone, from which the law of written heads is shown.
fn head_of(file: &[u8]) -> Result<(Head, &[u8]), Refusal>
    ensures { outcome result ≡ reading file.now }
{
    if file.len() > MOST_BYTES {
        return Err(Refusal::Unreadable);
    }
    parse(file).ok_or(Refusal::Unreadable)
}

fn parse(bytes: &[u8]) -> Option<(Head, &[u8])>
    ensures { seen result ≡ head bytes.now }
{
    let mut reader = Reader::new(bytes)?;
    if reader.map >= FIRST_UNNAMED {
        return None;
    }
    let draft = reader.draft()?;
    let holds = reader.holds()?;
    Some((Head { draft, holds }, reader.rest))
}

// After a `None` it is left open what a reader has left: the file is refused, and nobody reads on.
impl Reader<'_> {
    fn draft(&mut self) -> Option<Draft>
        ensures { Reads draft_of self.old result self.new }
    {
        Some(Draft {
            cores: self.number(&CORES)? as u32,
            critical: self.number(&CRITICAL)? as u32,
            lines: self.number(&LINES)? as u32,
            width: self.number(&SLOT_WIDTH)? as u32,
        })
    }

    fn holds(&mut self) -> Option<FourHolds>
        ensures { Reads holds_of self.old result self.new }
    {
        Some(FourHolds {
            critical: self.against(ABSENT_HOLDS.critical)?,
            noncritical: self.against(ABSENT_HOLDS.noncritical)?,
        })
    }

    fn against(&mut self, absent: Against) -> Option<Against>
        ensures { Reads (λ map. against_of (stands map HOLDS) absent) self.old result self.new }
    {
        Some(Against {
            critical: self.hold(absent.critical)?,
            noncritical: self.hold(absent.noncritical)?,
        })
    }

    fn hold(&mut self, absent: u16) -> Option<u16>
        ensures { Reads (λ map. field (stands map HOLDS) 2 absent) self.old result self.new }
    {
        let hold = Field::<2> {
            bit: HOLDS,
            absent: u64::from(absent),
        };
        Some(self.number(&hold)? as u16)
    }
}
