// The least and the greatest length of a record whose texts have lengths between given ones: both go over the format side by side.
#![tactic(auto)]

ghost use Rattle.std.specs.Prelude.{◌≡◌, Bool, ℕ, ◌+◌, ◌≤◌, ◌<◌, ◌^◌, T, leb, ltb};
ghost use Rattle.definition.specs.Refusals.{answer_of, answer_by};
ghost use Rattle.laws.proofs.Ops.{Limited};
ghost use Rattle.options.specs.Packed.{table_at};
ghost use Rattle.lengths.specs.Lengths as ranges;
ghost use Rattle.range.specs.Extents.{left_of, text_extents};

use align::{NaturalAlignment, longer, padding, set, start, state};
use definition::{Field, Op, Refusal, State};
use format::walk::try_fold;
use items::{Size, ValidField, ValidOp};
use lengths::Range;
use options::{OptionTable, table};

// Between items: the state with the greatest length, the least length, and the pairs left.
#[derive(Clone, Copy)]
struct Place<'a> {
    greatest: State,
    least: u64,
    pairs: &'a [u8],
    ghost limited: { Limited greatest },
    ghost ordered: { least ≤ greatest.length },
}

// The bytes of a pair of lengths.
const PAIR: usize = 4;

// The greatest length that a pair can say.
const MAX_TEXT: u64 = 65535;

// The bytes of the field of a text by the first pair, and the other pairs: the text has at most so many bytes, and the field some
// more beside it. These are a bare number with a bound, since the zero of z is the size of no integer.
fn text_extents(pairs: &[u8], beside: u64, most: u64) -> Result<(Range, &[u8]), Refusal>
    requires { beside ≤ 16 }
    ensures { (holds : ℕ → Bool) → ((m : ℕ) → m < 65536 → holds m ≡ leb m most) → answer_by left_of result ≡ text_extents holds beside pairs.now }
{
    let [a, b, c, d, rest @ ..] = pairs else {
        return Err(Refusal::NoValueLeft);
    };
    let least = u64::from(u16::from_be_bytes([*a, *b]));
    let greatest = u64::from(u16::from_be_bytes([*c, *d]));
    if greatest < least {
        return Err(Refusal::LeastAboveGreatest);
    }
    if most < greatest {
        return Err(Refusal::TextDoesNotFit);
    }
    let bytes = Range {
        least: beside + least,
        greatest: beside + greatest,
    };
    Ok((bytes, rest))
}

// The longest text, of those that a pair can say, that a length of size bytes can hold.
fn most_counted(size: Size) -> u64
    ensures { (m : ℕ) → m < 65536 → ltb m (256 ^ size.bytes) ≡ leb m result }
{
    if size.bytes < 2 { 255 } else { MAX_TEXT }
}

// The bytes of a field with the least text and with the greatest, and the pairs left.
#[tactic(auto, unfolding(lengths::specs::Lengths::extents))]
fn extents(f: ValidField, pairs: &[u8]) -> Result<(Range, &[u8]), Refusal>
    ensures { answer_by left_of result ≡ ranges.extents f.field pairs.now }
{
    match f.field {
        Field::Number(_, n) | Field::Chars(n) => Ok((
            Range {
                least: n,
                greatest: n,
            },
            pairs,
        )),
        Field::ZeroEnded => text_extents(pairs, 1, MAX_TEXT),
        Field::Counted(n) => text_extents(pairs, n, most_counted(Size { bytes: n })),
    }
}

impl<'a> Place<'a> {
    ghost use Rattle.definition.specs.Ops.{ops};
    ghost use Rattle.definition.specs.States.{start};
    ghost use Rattle.definition.specs.declared.Op.TheVariants.{Pad, Put};
    ghost use Rattle.range.specs.Places.{places_of};

    // Before the first item.
    fn first(pairs: &'a [u8]) -> Place<'a>
        ensures { places_of result ≡ ranges.places start start pairs.now }
    {
        Place {
            greatest: start(),
            least: 0,
            pairs,
        }
    }

    // The zeros before what has a natural alignment, behind the least length and behind the greatest.
    fn paddings(self, natural: NaturalAlignment) -> Result<Range, Refusal>
        ensures { answer_of result ≡ ranges.paddings (places_of self.entry) natural.bytes }
    {
        let s = self.greatest;
        let least = padding(state(s.big, s.limit, self.least), natural)?;
        let greatest = padding(s, natural)?;
        Ok(Range { least, greatest })
    }

    // Some zeros and bytes on, with the pairs that are then left. That both lengths stay in order is asked for as it is: a type that
    // holds it would carry the place a second time, beside the zeros.
    #[tactic(auto, using(laws::proofs::Steps::longer_capped))]
    fn onward(self, zeros: Range, bytes: Range, pairs: &'a [u8]) -> Result<Place<'a>, Refusal>
        requires { self.least + (zeros.least + bytes.least) ≤ self.greatest.length + (zeros.greatest + bytes.greatest) }
        ensures { answer_by places_of result ≡ ranges.onward (places_of self.entry) zeros (bytes, pairs.now) }
    {
        // Counted up to the greatest sum that 64 bits hold, which is too long in any case.
        let greatest = longer(self.greatest, zeros.greatest.saturating_add(bytes.greatest))?;
        Ok(Place {
            greatest,
            least: self.least + (zeros.least + bytes.least),
            pairs,
        })
    }

    // Behind an alignment and n bytes.
    #[tactic(auto, unfolding(lengths::specs::Lengths::range_op))]
    fn pad(self, natural: NaturalAlignment, n: u64) -> Result<Place<'a>, Refusal>
        ensures { answer_by places_of result ≡ ranges.range_op (places_of self.entry) (Pad natural.bytes n) }
    {
        let zeros = self.paddings(natural)?;
        let bytes = Range {
            least: n,
            greatest: n,
        };
        self.onward(zeros, bytes, self.pairs)
    }

    // Behind a field.
    #[tactic(auto, unfolding(lengths::specs::Lengths::range_op))]
    fn field(self, f: ValidField) -> Result<Place<'a>, Refusal>
        ensures { answer_by places_of result ≡ ranges.range_op (places_of self.entry) (Put f.field) }
    {
        let zeros = self.paddings(f.natural())?;
        let (bytes, pairs) = extents(f, self.pairs)?;
        self.onward(zeros, bytes, pairs)
    }

    // Behind an item.
    #[tactic(auto, unfolding(lengths::specs::Lengths::range_op))]
    fn step(self, item: ValidOp) -> Result<Place<'a>, Refusal>
        ensures { answer_by places_of result ≡ ranges.range_op (places_of self.entry) item.op }
    {
        match item.op {
            Op::Blank => Ok(self),
            Op::Set(x) => Ok(Place {
                greatest: set(self.greatest, x),
                least: self.least,
                pairs: self.pairs,
            }),
            Op::Pad(n, k) => self.pad(NaturalAlignment { bytes: n }, k),
            Op::Put(f) => self.field(ValidField { field: f }),
        }
    }

    // Behind the last item of a format, by the table that is lent.
    fn last(table: &OptionTable, format: &[u8], pairs: &'a [u8]) -> Result<Place<'a>, Refusal>
        ensures { answer_by places_of result ≡ ranges.ranging (ranges.places start start pairs.now) (ops (table_at table.now.entries) format.now) }
    {
        try_fold(table, format, Place::first(pairs), Place::step)
    }
}

// The least and the greatest length of a record of a format: the pairs have, for each z or s in order, the least and the greatest
// length of its text, two bytes each, big-endian.
#[tactic(auto, unfolding(lengths::specs::Lengths::packsize_range, lengths::specs::Lengths::range_by))]
pub fn packsize_range(format: &[u8], pairs: &[u8]) -> Result<Range, Refusal>
    ensures { answer_of result ≡ ranges.packsize_range format.now pairs.now }
{
    if pairs.len() % PAIR != 0 {
        return Err(Refusal::Malformed);
    }
    // Copied once a call: each use of a constant copies it anew.
    let options = table();
    let end = Place::last(&options, format, pairs)?;
    Ok(Range {
        least: end.least,
        greatest: end.greatest.length,
    })
}
