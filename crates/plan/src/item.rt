// What writing does for an item: one plan serves the pass that checks and the pass that puts bytes.
ghost use Rattle.std.specs.Prelude.{◌≡◌, ◌+◌, ◌-◌, ◌^◌, ◌≤◌, ltb};
ghost use Rattle.definition.specs.Answers.{accepted};
ghost use Rattle.definition.specs.Refusals.{answer_of};
ghost use Rattle.definition.specs.States as states;
ghost use Rattle.definition.specs.declared.Field.TheVariants as fields;
ghost use Rattle.definition.specs.declared.Op.TheVariants as ops;
ghost use Rattle.plan.specs.Plans.{ItemAt, TextPlan};

use crate::place::{Padded, Place};
use crate::text::{Text, has_zero};
use align::{NaturalAlignment, fits, fits_few, padding};
use definition::{Field, Op, Refusal, Setting};
use items::{Number, Size, ValidField, ValidOp};
use values::proper::ProperValue;
use word::word_of;

// What an item does.
#[derive(Clone, Copy)]
pub enum Plan {
    // A blank: nothing.
    Skip,
    // A change of the state.
    Set(Setting),
    // So many zeros.
    Zeros(u64),
    // A number: the zeros before it, its size, its word, and where the list's next field starts.
    Number {
        pads: u64,
        size: u64,
        word: u64,
        next: usize,
    },
    // A text of the list: the zeros before it and after it.
    Text {
        pads: u64,
        text: Text,
        zeros: u64,
    },
    // A text of the list behind its length: the zeros before the length, and the length's size.
    Counted {
        pads: u64,
        size: u64,
        text: Text,
    },
}

// Whether a length in so many bytes can be that of a text.
#[tactic(auto, using(crate::proofs::Texts::count_more))]
fn countable(size: Size, text: Text) -> bool
    ensures { result ≡ ltb text.length (256 ^ size.bytes) }
{
    if size.bytes == 1 {
        return text.length <= 255;
    }
    true
}

impl Padded<'_> {
    // A number: 11, 12, 13, 9.
    #[tactic(auto, using(crate::proofs::Plans::number_missing, crate::proofs::Plans::number_refused, crate::proofs::Plans::number_long, crate::proofs::Plans::number_put))]
    fn number(self, number: Number) -> Result<Plan, Refusal>
        requires padded { states.padding self.place.state number.size ≡ accepted self.pads }
        ensures { ItemAt self.entry.place (ops.Put (fields.Number number.kind number.size)) result }
    {
        let (value, next) = self.place.reader.field().ok_or(Refusal::NoValueLeft)?;
        let word = word_of(number, ProperValue { value })?;
        if !fits_few(self.place.state, self.pads + number.size) {
            return Err(Refusal::LengthTooLarge);
        }
        Ok(Plan::Number {
            pads: self.pads,
            size: number.size,
            word,
            next,
        })
    }

    // A text that passed all checks but 9, with zeros behind it.
    #[tactic(auto, using(crate::proofs::Plans::text_too_long, crate::proofs::Plans::text_put))]
    fn put_text(self, text: Text, zeros: u64) -> Result<Plan, Refusal>
        requires { text.length + zeros ≤ 2 ^ 63 - 1 }
        ensures { TextPlan self.entry text zeros result }
    {
        if !fits(self.place.state, self.pads + (text.length as u64 + zeros)) {
            return Err(Refusal::LengthTooLarge);
        }
        Ok(Plan::Text {
            pads: self.pads,
            text,
            zeros,
        })
    }

    // c: 9, 11, 12, 15, 9.
    #[tactic(auto, using(crate::proofs::Plans::chars_early, crate::proofs::Plans::chars_missing, crate::proofs::Plans::chars_too_long, crate::proofs::Plans::chars_put))]
    fn chars(self, n: u64) -> Result<Plan, Refusal>
        requires padded { states.padding self.place.state (states.natural (fields.Chars n)) ≡ accepted self.pads }
        ensures { ItemAt self.entry.place (ops.Put (fields.Chars n)) result }
    {
        if !fits(self.place.state, n) {
            return Err(Refusal::LengthTooLarge);
        }
        let text = Text::at(self.place.reader)?;
        let length = text.length as u64;
        if n < length {
            return Err(Refusal::TextDoesNotFit);
        }
        self.put_text(text, n - length)
    }

    // z: 11, 12, 14, 9.
    #[tactic(auto, using(crate::proofs::Plans::z_missing, crate::proofs::Plans::z_zero, crate::proofs::Plans::z_put))]
    fn zero_ended(self) -> Result<Plan, Refusal>
        requires padded { states.padding self.place.state (states.natural fields.ZeroEnded) ≡ accepted self.pads }
        ensures { ItemAt self.entry.place (ops.Put fields.ZeroEnded) result }
    {
        let text = Text::at(self.place.reader)?;
        if has_zero(text.bytes(self.place.reader.list)) {
            return Err(Refusal::ZeroInText);
        }
        self.put_text(text, 1)
    }

    // s: 11, 12, 15, 9.
    #[tactic(auto, using(crate::proofs::Plans::counted_missing, crate::proofs::Plans::counted_refused, crate::proofs::Plans::counted_too_long, crate::proofs::Plans::counted_put))]
    fn counted(self, size: Size) -> Result<Plan, Refusal>
        requires padded { states.padding self.place.state size.bytes ≡ accepted self.pads }
        ensures { ItemAt self.entry.place (ops.Put (fields.Counted size.bytes)) result }
    {
        let text = Text::at(self.place.reader)?;
        if !countable(size, text) {
            return Err(Refusal::TextDoesNotFit);
        }
        let pads = self.pads;
        if !fits_few(self.place.state, pads + (size.bytes + text.length as u64)) {
            return Err(Refusal::LengthTooLarge);
        }
        Ok(Plan::Counted {
            pads,
            size: size.bytes,
            text,
        })
    }
}

// x and X: 6, 9.
#[tactic(auto, using(crate::proofs::Plans::padding_lt, crate::proofs::Plans::pad_unaligned, crate::proofs::Plans::pad_long, crate::proofs::Plans::pad_zeros))]
fn pad(place: Place, natural: NaturalAlignment, zeros: u64) -> Result<Plan, Refusal>
    requires { zeros ≤ 1 }
    ensures { ItemAt place.entry (ops.Pad natural.bytes zeros) result }
{
    let p = padding(place.state, natural)?;
    if !fits(place.state, p + zeros) {
        return Err(Refusal::LengthTooLarge);
    }
    Ok(Plan::Zeros(p + zeros))
}

// The zeros before a field, or 6.
fn padding_of(place: Place, f: ValidField) -> Result<u64, Refusal>
    ensures { answer_of result ≡ states.padding place.entry.state (states.natural f.field) }
{
    padding(place.state, f.natural())
}

// A field: 6, then by its option. Each is padded by itself, so that the compiler knows in each case which natural alignment it
// has, and goes on from there to that option's checks: one padding before the match makes writing cost up to 30 % more.
#[tactic(auto, using(crate::proofs::Plans::padding_lt, crate::proofs::Plans::unaligned, crate::proofs::Plans::number_valid, crate::proofs::Plans::size_within))]
fn field(place: Place, f: ValidField) -> Result<Plan, Refusal>
    ensures { ItemAt place.entry (ops.Put f.field) result }
{
    match f.field {
        Field::Number(kind, size) => {
            let pads = padding_of(place, f)?;
            Padded { place, pads }.number(Number { kind, size })
        }
        Field::Chars(n) => {
            let pads = padding_of(place, f)?;
            Padded { place, pads }.chars(n)
        }
        Field::ZeroEnded => {
            let pads = padding_of(place, f)?;
            Padded { place, pads }.zero_ended()
        }
        Field::Counted(bytes) => {
            let pads = padding_of(place, f)?;
            Padded { place, pads }.counted(Size { bytes })
        }
    }
}

// The plan of an item at a place.
#[tactic(auto, using(crate::proofs::Plans::skips, crate::proofs::Plans::sets_state))]
pub fn plan_of(place: Place, op: ValidOp) -> Result<Plan, Refusal>
    ensures { ItemAt place.entry op.op result }
{
    match op.op {
        Op::Blank => Ok(Plan::Skip),
        Op::Set(x) => Ok(Plan::Set(x)),
        Op::Pad(bytes, zeros) => pad(place, NaturalAlignment { bytes }, zeros),
        Op::Put(f) => field(place, ValidField { field: f }),
    }
}
