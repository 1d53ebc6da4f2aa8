// The size of a format.
#![tactic(auto)]

ghost use Rattle.std.specs.Prelude.{◌≡◌};
ghost use Rattle.definition.specs.Measuring.{size_of, measure_pad, measure_op, measure_from};
ghost use Rattle.definition.specs.Calls.{string_packsize};
ghost use Rattle.definition.specs.Refusals.{answer_of, answer_by};
ghost use Rattle.definition.specs.States as states;
ghost use Rattle.laws.proofs.Ops.{Limited};
ghost use Rattle.options.specs.Packed.{table_at};
ghost use Rattle.measure.specs.Fields.{measure_field};

use align::{NaturalAlignment, longer, padding, set, start};
use definition::{Field, Op, Refusal, State};
use format::walk::try_fold;
use items::{ValidField, ValidOp};
use options::{OptionTable, table};

// Between items: a state, whose limit is a power of two of 1 to 16.
#[derive(Clone, Copy)]
struct Place {
    state: State,
    ghost limited: { Limited state },
}

// The size of a field; z and s have none.
fn size_of(f: Field) -> Result<u64, Refusal>
    ensures { answer_of result ≡ size_of f }
{
    match f {
        Field::Number(_, n) | Field::Chars(n) => Ok(n),
        Field::ZeroEnded | Field::Counted(_) => Err(Refusal::NoFixedSize),
    }
}

impl Place {
    ghost use Rattle.measure.specs.Places.{state_of};

    // Before the first item.
    fn first() -> Place
        ensures { result.state ≡ states.start }
    {
        Place { state: start() }
    }

    // Some bytes on.
    fn onward(self, n: u64) -> Result<Place, Refusal>
        ensures { answer_by state_of result ≡ states.longer self.state n }
    {
        let state = longer(self.state, n)?;
        Ok(Place { state })
    }

    // Behind an alignment and n bytes. The sum is counted up to the greatest that 64 bits hold, which is too long in any case.
    #[tactic(auto, using(laws::proofs::Steps::longer_capped))]
    fn pad(self, natural: NaturalAlignment, n: u64) -> Result<Place, Refusal>
        ensures { answer_by state_of result ≡ measure_pad self.state natural.bytes n }
    {
        let zeros = padding(self.state, natural)?;
        self.onward(zeros.saturating_add(n))
    }

    // Behind a field.
    fn field(self, f: ValidField) -> Result<Place, Refusal>
        ensures { answer_by state_of result ≡ measure_field self.state f.field }
    {
        self.pad(f.natural(), size_of(f.field)?)
    }

    // Behind an item.
    #[tactic(auto, unfolding(definition::specs::Measuring::measure_op))]
    fn step(self, item: ValidOp) -> Result<Place, Refusal>
        ensures { answer_by state_of result ≡ measure_op self.state item.op }
    {
        match item.op {
            Op::Blank => Ok(self),
            Op::Set(x) => Ok(Place {
                state: set(self.state, x),
            }),
            Op::Pad(n, k) => self.pad(NaturalAlignment { bytes: n }, k),
            Op::Put(f) => self.field(ValidField { field: f }),
        }
    }

    // Behind the items of a format, by the table that is lent.
    fn measure_from(table: &OptionTable, format: &[u8], from: Place) -> Result<Place, Refusal>
        ensures { answer_by state_of result ≡ measure_from (table_at table.now.entries) from.state format.now }
    {
        try_fold(table, format, from, Place::step)
    }
}

// The size of a format.
#[tactic(auto, unfolding(definition::specs::Measuring::measure))]
pub fn string_packsize(format: &[u8]) -> Result<u64, Refusal>
    ensures { answer_of result ≡ string_packsize format.now }
{
    // Copied once a call: each use of a constant copies it anew.
    let options = table();
    let end = Place::measure_from(&options, format, Place::first())?;
    Ok(end.state.length)
}
