// Reads the fields of a value list.
#![tactic(auto)]

pub mod proper;
pub mod reader;

ghost use Rattle.std.specs.Prelude.{◌≡◌, true, drop};
ghost use Rattle.definition.specs.Lists.{values, offset_after};
ghost use Rattle.values.specs.Meaning.{numeric, FloatRead, suits, FirstRead, FieldRead, is_accepted};

use crate::reader::Reader;
use definition::{TAG_FLOAT, TAG_INTEGER, TAG_OTHER, TAG_TEXT};

// A value of a list.
#[derive(Clone, Copy)]
pub enum Value {
    Integer(i64),
    // A float that is no NaN.
    Float(f64),
    // A NaN, by its bits.
    NotANumber(u64),
    // Where the text starts in the list, and its length: a place, as document 01 names it, so that a value lends nothing.
    Text(usize, usize),
    Other,
}

// A float's sign, and the bits of infinity, above which, the sign left out, are the bits of the NaNs.
const SIGN: u64 = 0x8000_0000_0000_0000;

const INFINITY: u64 = 0x7ff0_0000_0000_0000;

// ---- reading

// Whether a tag is a number's. Asked first, in one comparison, it makes numbers cheap.
// Tags stay bytes, which are compared and never kept: an enum of them would add an arm of `try_from` that no field comes to.
fn is_number(tag: u8) -> bool
    ensures { result ≡ numeric tag }
{
    tag == TAG_INTEGER || tag == TAG_FLOAT
}

// The float of 64 bits.
fn float_of(b: u64) -> Value
    ensures { FloatRead b result }
{
    if b % SIGN > INFINITY {
        Value::NotANumber(b)
    } else {
        Value::Float(f64::from_bits(b))
    }
}

// The field at an offset of a list that is well formed from there on: its value, with the offset of the next field.
// None at the end. The reader's method, for a caller that has no reader.
pub fn field_at(list: &[u8], at: usize) -> Option<(Value, usize)>
    requires { is_accepted (values (drop at list.now)) ≡ true }
    ensures { FieldRead list.now at result }
{
    Reader { list, at }.field()
}

// The first field of a list, which is not known to be well formed: its tag, its content, and the list behind it. None where the
// list ends before.
fn first(list: &[u8]) -> Option<(u8, &[u8], &[u8])>
    ensures { FirstRead list.now result }
{
    let [tag, high, low, rest @ ..] = list else {
        return None;
    };
    let n = usize::from(u16::from_be_bytes([*high, *low]));
    let (content, behind) = rest.split_at_checked(n)?;
    Some((*tag, content, behind))
}

// Whether a content of n bytes suits a tag.
fn length_suits(tag: u8, n: usize) -> bool
    ensures { result ≡ suits tag n }
{
    if is_number(tag) {
        return n == 8;
    }
    if tag == TAG_OTHER {
        return n == 0;
    }
    tag == TAG_TEXT
}

// Whether the list is fields and nothing else. Here and below a loop, and no iterator over fields: both ask for what is left where
// it stops.
pub fn is_list(list: &[u8]) -> bool
    ensures { result ≡ is_accepted (values list.now) }
{
    let mut rest = list;
    while let Some((tag, content, behind)) = first(rest) {
        if !length_suits(tag, content.len()) {
            return false;
        }
        rest = behind;
    }
    rest.is_empty()
}

// Where the list after its first k fields starts: at its end where there are fewer.
pub fn fields_after(list: &[u8], k: u64) -> usize
    ensures { result ≡ offset_after k list.now }
{
    let mut rest = list;
    for _ in 0..k {
        let Some((_, _, behind)) = first(rest) else {
            return list.len();
        };
        rest = behind;
    }
    list.len() - rest.len()
}
