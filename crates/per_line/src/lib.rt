// Policy kind 2: four numbers for each line, from the caller's table, cut to given caps.
#![tactic(auto)]

ghost use Rattle.std.specs.Prelude.{◌≡◌};
ghost use Rattle.per_line.specs.PerLine.{line_holds, per_line, FewTable};
ghost use Rattle.per_line.specs.PerLineLaw.{per_line_lawful};
ghost use Rattle.policy.specs.FourNumbers.{raised};
ghost use Rattle.policy.specs.Timing.{later};
ghost use Rattle.setup.specs.declared.class.Class.TheVariants.{Critical, NonCritical};

use policy::Policy;
use policy::holds::FourHolds;
use policy::own_caps::OwnCaps;
use setup::bound::Caps;
use setup::class::Class;
use setup::kind::Kind;

// No `impl Model`: the law of the policy is shown from the ghost field, which it would hide.
#[derive(Debug, Drop)]
pub struct PerLine<'a> {
    table: &'a [u16],
    own: OwnCaps,
    ghost few: { FewTable table.now },
}

/// The four holds of a line, or none where the table has not all four.
#[tactic(auto, using(setup::proofs::Rows::number_at))]
fn holds_of(table: &[u16], line: usize) -> FourHolds
    ensures { result ≡ line_holds table.now line }
{
    let (lines, _) = table.as_chunks::<4>();
    match lines.get(line) {
        Some(&row) => row.into(),
        None => FourHolds::default(),
    }
}

impl<'a> PerLine<'a> {
    /// The policy of a table with four numbers for each line, under caps.
    pub fn over(table: &'a [u16], caps: Caps) -> PerLine<'a>
        ensures kind { ⟦<Self as Policy>⟧.kind ≡ 2 }
        ensures timing { ⟦<Self as Policy>⟧.timing result ≡ per_line table.now (raised caps) }
        ensures table { result.table ≡ table.entry }
    {
        PerLine {
            table,
            own: OwnCaps::raised(caps),
        }
    }
}

impl Policy for PerLine<'_> {
    const KIND: Kind = Kind { number: 2 };

    ghost kind = { 2 };

    ghost timing = { λ p. per_line p.table.now p.own.caps };

    ghost lawful = { λ p. per_line_lawful p.table.now p.own.caps p.few p.own.some p.own.few };

    // A body for each impl: the trait says why.
    fn kind_number(&self) -> Kind {
        <Self as Policy>::KIND
    }

    fn caps(&mut self) -> Caps
        ensures value { result ≡ (per_line self.old.table.now self.old.own.caps).caps }
        ensures kept { self.new ≡ self.old }
    {
        self.own.caps()
    }

    fn holds(&mut self, core: usize, class: Class, line: usize) -> (u16, u16)
        ensures critical { result.0 ≡ (per_line self.old.table.now self.old.own.caps).hold 0 core class line Critical }
        ensures noncritical { result.1 ≡ (per_line self.old.table.now self.old.own.caps).hold 0 core class line NonCritical }
        ensures kept { self.new ≡ self.old }
    {
        let holds = holds_of(self.table, line).of(class);
        self.own.cut(class, holds.into())
    }

    fn slot_passed(&mut self)
        ensures timing { per_line self.new.table.now self.new.own.caps ≡ later (per_line self.old.table.now self.old.own.caps) }
        ensures kept { self.new ≡ self.old }
    {
        // The table is the same for every slot.
    }
}
