// The bits of the integer that a number option writes.
#![tactic(auto)]

ghost use Rattle.std.specs.Prelude.{◌≡◌, List, ℕ, ◌^◌, ◌≤◌, cond, ltb};
ghost use Rattle.definition.specs.Answers.{refused, or_else};
ghost use Rattle.definition.specs.Bytes.{extent};
ghost use Rattle.definition.specs.Fields as fields;
ghost use Rattle.definition.specs.Refusals.{answer_of};
ghost use Rattle.definition.specs.Values as definition;
ghost use Rattle.definition.specs.declared.Kind.TheVariants as kinds;
ghost use Rattle.values.specs.Meaning.{meaning};
ghost use Rattle.word.specs.Words.{Says, in_range, ranged_or};

use definition::{Kind, Refusal};
use items::{Number, Size};
use numbers::{as_integer, as_number, as_wrapped};
use single::to_single;
use values::proper::ProperValue;
use words::{extent, to_word};

// The integer of a value.
fn integer(v: ProperValue) -> Result<i64, Refusal>
    ensures { (l : List ℕ) → answer_of result ≡ or_else (definition.as_integer (meaning l v.value)) (refused 12) }
{
    as_integer(v).ok_or(Refusal::WrongKind)
}

// The number of a value, by its bits.
fn bits(v: ProperValue) -> Result<u64, Refusal>
    ensures { (l : List ℕ) → answer_of result ≡ or_else (definition.as_number (meaning l v.value)) (refused 12) }
{
    as_number(v).ok_or(Refusal::WrongKind)
}

// b h B H: any integer.
fn any_integer(v: ProperValue) -> Result<u64, Refusal>
    ensures { (l : List ℕ) (n : ℕ) → Says n (fields.word kinds.SmallSigned n (meaning l v.value)) result }
{
    let z = integer(v)?;
    Ok(to_word(z))
}

// Whether an integer, a negative one as -1 - z, has at most so many bits; each one has at most 63.
#[tactic(auto, using(crate::proofs::Words::all_bits))]
fn has_bits(bits: u64, z: i64) -> bool
    ensures { result ≡ ltb (extent z) (2 ^ bits) }
{
    bits >= 63 || extent(z) < 1 << bits
}

// Whether an integer is in the range of size bytes: the signed range, or the other.
#[tactic(auto, using(crate::proofs::Words::signed_range, crate::proofs::Words::unsigned_range))]
fn is_in_range(signed: bool, size: Size, z: i64) -> bool
    ensures { result ≡ in_range signed size.bytes z }
{
    if signed {
        has_bits(8 * size.bytes - 1, z)
    } else {
        z >= 0 && has_bits(8 * size.bytes, z)
    }
}

// An integer in the range of size bytes.
fn in_range(signed: bool, size: Size, z: i64) -> Result<u64, Refusal>
    ensures { Says size.bytes (ranged_or (in_range signed size.bytes z) z) result }
{
    if is_in_range(signed, size, z) {
        Ok(to_word(z))
    } else {
        Err(Refusal::OutOfRange)
    }
}

// i l, signed, and I L: an integer in the range of size bytes. The flag is a value and no const parameter, since J asks for the range too.
fn ranged(signed: bool, size: Size, v: ProperValue) -> Result<u64, Refusal>
    ensures { (l : List ℕ) → Says size.bytes (fields.word (cond signed kinds.Signed kinds.Unsigned) size.bytes (meaning l v.value)) result }
{
    let z = integer(v)?;
    in_range(signed, size, z)
}

// j: an integer, or a float's bits. It stays apart from J and T, which differ in one arm each: one function for them would take a
// closure, a clause that it may be called, and a contract of both arms.
fn lua_integer(v: ProperValue) -> Result<u64, Refusal>
    ensures { (l : List ℕ) (n : ℕ) → n ≤ 8 → Says n (fields.word kinds.LuaInteger n (meaning l v.value)) result }
{
    match as_integer(v) {
        Some(z) => Ok(to_word(z)),
        None => bits(v),
    }
}

// J: the same, but for an integer below 0.
fn lua_unsigned(v: ProperValue) -> Result<u64, Refusal>
    ensures { (l : List ℕ) → Says 8 (fields.word kinds.LuaUnsigned 8 (meaning l v.value)) result }
{
    match as_integer(v) {
        Some(z) => in_range(false, Size { bytes: 8 }, z),
        None => bits(v),
    }
}

// T: an integer, or a float modulo 2^64.
fn size_word(v: ProperValue) -> Result<u64, Refusal>
    ensures { (l : List ℕ) (n : ℕ) → n ≤ 8 → Says n (fields.word kinds.Size n (meaning l v.value)) result }
{
    match as_integer(v) {
        Some(z) => Ok(to_word(z)),
        None => as_wrapped(v).ok_or(Refusal::WrongKind),
    }
}

// f: a number, rounded.
fn single(v: ProperValue) -> Result<u64, Refusal>
    ensures { (l : List ℕ) (n : ℕ) → n ≤ 8 → Says n (fields.word kinds.Single n (meaning l v.value)) result }
{
    let b = bits(v)?;
    Ok(u64::from(to_single(b)))
}

// The word of a value: 12, 13. d and n are a number's bits.
pub fn word_of(number: Number, v: ProperValue) -> Result<u64, Refusal>
    ensures { (l : List ℕ) → Says number.size (fields.word number.kind number.size (meaning l v.value)) result }
{
    match number.kind {
        Kind::SmallSigned | Kind::SmallUnsigned => any_integer(v),
        Kind::Signed => ranged(true, Size { bytes: number.size }, v),
        Kind::Unsigned => ranged(false, Size { bytes: number.size }, v),
        Kind::LuaInteger => lua_integer(v),
        Kind::LuaUnsigned => lua_unsigned(v),
        Kind::Size => size_word(v),
        Kind::Single => single(v),
        Kind::Double => bits(v),
    }
}
