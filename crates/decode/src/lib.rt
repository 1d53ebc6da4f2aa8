// The value of a field's bytes: 17, then 18 or 19, then 20.
#![tactic(auto)]

ghost use Rattle.std.specs.Prelude.{◌≡◌, Bool, ◌==◌, position};
ghost use Rattle.definition.specs.declared.Field.TheVariants as field;
ghost use Rattle.decode.specs.Readings.{Decodes, TextOf};

pub mod rest;
pub mod span;

use definition::{Kind, Offset, Refusal};
use items::Number;
use load::{get_signed, get_unsigned, get_word};
use rest::Rest;
use single::from_single;
use span::Span;
use words::to_signed;

// A value that is read: an integer, a float by its 64 bits, or a text by where it lies in the data.
#[derive(Clone, Copy)]
pub enum Reading {
    Integer(i64),
    Float(u64),
    Text(Span),
}

// A value, and the number of bytes that it was read of.
#[derive(Clone, Copy)]
pub struct Decoded {
    pub reading: Reading,
    pub size: u64,
}

// The length of the longest text that a value list holds.
const MAX_TEXT: u64 = 65535;

// A number. The arms are by kind, and not by what each reads: an enum of what is read would be made of a kind for this match alone.
pub fn number(rest: Rest, big: bool, number: Number) -> Result<Decoded, Refusal>
    ensures { Decodes rest.entry.data.now rest.entry.at big (field.Number number.kind number.size) result }
{
    let size = number.size;
    let (bytes, _) = rest.split(size)?;
    let reading = match number.kind {
        Kind::SmallSigned | Kind::LuaInteger | Kind::Signed => {
            Reading::Integer(get_signed(bytes, big).ok_or(Refusal::IntegerTooWide)?)
        }
        Kind::SmallUnsigned | Kind::LuaUnsigned | Kind::Size | Kind::Unsigned => {
            Reading::Integer(to_signed(get_unsigned(bytes, big).ok_or(Refusal::IntegerTooWide)?))
        }
        // A constant number of bytes: its loop becomes one load.
        Kind::Single => Reading::Float(from_single(get_word(&bytes[0..4], big) as u32)),
        Kind::Double => Reading::Float(get_word(&bytes[0..8], big)),
    };
    Ok(Decoded { reading, size })
}

// A text of n bytes from an offset, where so many bytes are read: 20.
fn text_of(start: Offset, n: u64, size: u64) -> Result<Decoded, Refusal>
    ensures { TextOf start n size result }
{
    if MAX_TEXT < n {
        return Err(Refusal::TextAbove65535);
    }
    Ok(Decoded {
        reading: Reading::Text(Span { start, size: n }),
        size,
    })
}

// c: a text of n bytes.
pub fn text(rest: Rest, n: u64) -> Result<Decoded, Refusal>
    ensures { (o : Bool) → Decodes rest.entry.data.now rest.entry.at o (field.Chars n) result }
{
    rest.past(n)?;
    text_of(rest.at, n, n)
}

// The index of the first zero.
fn first_zero(bytes: &[u8]) -> Option<usize>
    ensures { result ≡ position (λ b. b == 0) bytes.now }
{
    bytes.iter().position(|b| *b == 0)
}

// z
pub fn zero_ended(rest: Rest) -> Result<Decoded, Refusal>
    ensures { (o : Bool) → Decodes rest.entry.data.now rest.entry.at o field.ZeroEnded result }
{
    let n = first_zero(&rest.data[rest.at.0 as usize..]).ok_or(Refusal::MissingZero)? as u64;
    text_of(rest.at, n, n + 1)
}

// s: a length of so many bytes, then its text.
pub fn counted(rest: Rest, big: bool, size: u64) -> Result<Decoded, Refusal>
    ensures { Decodes rest.entry.data.now rest.entry.at big (field.Counted size) result }
{
    let (bytes, behind) = rest.split(size)?;
    let n = get_unsigned(bytes, big).ok_or(Refusal::IntegerTooWide)?;
    let x = text(behind, n)?;
    Ok(Decoded {
        reading: x.reading,
        size: size + x.size,
    })
}
