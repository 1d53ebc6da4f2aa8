// Where reading stands before an item, and what the item does there.
ghost use Rattle.std.specs.Prelude.{◌≤◌, length};
ghost use Rattle.laws.proofs.Ops.{Limited};

use crate::{Fetched, after};
use align::{NaturalAlignment, at_offset, offset_in, padding, set};
use decode::rest::Rest;
use decode::{counted, number, text, zero_ended};
use definition::{Field, Op, Refusal, State};
use items::{Number, ValidField, ValidOp};

// At the end of what is read of the data, in a state, whose length is the offset there, as in the definition.
#[derive(Clone, Copy)]
pub struct Place<'a> {
    pub data: &'a [u8],
    pub state: State,
    ghost within: { state.length ≤ length «data».now },
    ghost limited: { Limited state },
}

impl<'a> Place<'a> {
    ghost use Rattle.definition.specs.declared.Op.TheVariants as ops;
    ghost use Rattle.fetch.specs.Fetching.{Skips, Fetches};

    // Behind an alignment and k bytes: 6, 17. The sum is counted up to the greatest that 64 bits hold; no data are as long.
    fn pad(self, natural: NaturalAlignment, k: u64) -> Result<Rest<'a>, Refusal>
        ensures { Skips self.entry.data.now self.entry.state natural.bytes k result }
    {
        let p = padding(self.state, natural)?;
        let rest = Rest {
            data: self.data,
            at: offset_in(self.state),
        };
        // Mostly nothing is filled up: without this test, reading numbers costs 3 to 6 % more.
        if p == 0 {
            return rest.past(k);
        }
        rest.past(p.saturating_add(k))
    }

    // A field: its alignment, then its value. Each kind is aligned by itself, so that the compiler knows of c and z that nothing is
    // passed over.
    fn field(self, f: ValidField) -> Result<Fetched, Refusal>
        ensures { Fetches self.entry.data.now self.entry.state (ops.Put f.field) result }
    {
        let big = self.state.big;
        match f.field {
            Field::Number(kind, size) => {
                let rest = self.pad(f.natural(), 0)?;
                Ok(after(rest, number(rest, big, Number { kind, size })?))
            }
            Field::Counted(size) => {
                let rest = self.pad(f.natural(), 0)?;
                Ok(after(rest, counted(rest, big, size)?))
            }
            Field::Chars(n) => {
                let rest = self.pad(f.natural(), 0)?;
                Ok(after(rest, text(rest, n)?))
            }
            Field::ZeroEnded => {
                let rest = self.pad(f.natural(), 0)?;
                Ok(after(rest, zero_ended(rest)?))
            }
        }
    }

    // What an item does here.
    pub fn step(self, op: ValidOp) -> Result<Fetched, Refusal>
        ensures { Fetches self.entry.data.now self.entry.state op.op result }
    {
        match op.op {
            Op::Put(field) => self.field(ValidField { field }),
            Op::Blank => Ok(Fetched::Set(self.state)),
            Op::Set(x) => Ok(Fetched::Set(set(self.state, x))),
            Op::Pad(bytes, k) => {
                let rest = self.pad(NaturalAlignment { bytes }, k)?;
                Ok(Fetched::Set(at_offset(self.state, rest.at)))
            }
        }
    }
}
