// The integer of a value, its number, and T of its float.
#![tactic(auto)]

ghost use Rattle.std.specs.Prelude.{◌≡◌, ℕ, ◌+◌, ◌-◌, ◌*◌, ◌/◌, ◌%◌, ◌^◌, ◌<◌, ◌≤◌, true, false, List, pos, to_bits};
ghost use Rattle.std.proofs.Math.Option.{some};
ghost use Rattle.std.specs.Float.{binary64};
ghost use Rattle.std.specs.Float.Ieee.{of_int, rem, fin};
ghost use Rattle.definition.specs.Values as definition;
ghost use Rattle.values.specs.Meaning.{meaning};
ghost use Rattle.numbers.specs.Meaning.{found, wrapped_float};

use single::nearest;
use values::Value;
use values::proper::ProperValue;
use words::extent;

const TWO_64: f64 = 18446744073709551616.0;

// Integers and floats are made of each other by bits: what the processor makes of them can depend on the host's rounding mode,
// and on whether it takes subnormal floats for 0.

// In a float's bits: the sign, and the significand's leading bit, which is also the exponent's unit.
const SIGN: u64 = 0x8000_0000_0000_0000;

const LEADING: u64 = 0x0010_0000_0000_0000;

// A u64 has 11 bits more than a significand.
const EXTRA_BITS: u64 = 11;

const EXTRA: u64 = 1 << EXTRA_BITS;

// The exponents of 1 and of 2 ^ 63.
const EXPONENT_OF_1: u64 = 1023;

const EXPONENT_OF_TOP: u64 = 1023 + 63;

// The exponent at which the significand's last bit counts 1, and that of infinity.
const EXPONENT_OF_LAST: u64 = 1023 + 52;

const EXPONENT_OF_INFINITY: u64 = 2047;

// A whole number with a sign, where that is an integer of 64 bits.
fn with_sign(negative: bool, whole: u64) -> Option<i64>
    ensures { found result ≡ definition.integer_where true (definition.with_sign negative whole) }
{
    if negative {
        0i64.checked_sub_unsigned(whole)
    } else {
        i64::try_from(whole).ok()
    }
}

// The integer that a float equals, by the float's bits.
#[tactic(auto, using(crate::proofs::Integers::at_zero, crate::proofs::Integers::at_fraction, crate::proofs::Integers::at_large))]
fn integer_of(bits: u64) -> Option<i64>
    ensures { found result ≡ definition.as_integer (definition.float bits) }
{
    let exponent = bits % SIGN / LEADING;
    if exponent < EXPONENT_OF_1 {
        if bits % SIGN == 0 {
            return Some(0);
        }
        return None;
    }
    if exponent > EXPONENT_OF_TOP {
        return None;
    }
    let significand = SIGN + bits % LEADING * EXTRA;
    let shift = EXPONENT_OF_TOP - exponent;
    let whole = significand >> shift;
    if whole << shift != significand {
        return None;
    }
    with_sign(bits >= SIGN, whole)
}

// The bits of the float nearest to a whole number.
fn rounded(n: u64) -> u64
    ensures { result ≡ to_bits binary64 (of_int binary64 (pos n)) }
{
    if n == 0 {
        return 0;
    }
    let zeros = u64::from(n.leading_zeros());
    // The significand's leading bit adds one to the exponent.
    (EXPONENT_OF_TOP - 1 - zeros) * LEADING + nearest(n << zeros, EXTRA_BITS)
}

// The bits of the float nearest to an integer, by its extent, as the definitions count.
fn bits_of(n: i64) -> u64
    ensures { some result ≡ definition.as_number (definition.integer n) }
{
    if n < 0 {
        SIGN + rounded(extent(n) + 1)
    } else {
        rounded(extent(n))
    }
}

// The remainder by 2^64, by the float's bits: for `%` Rattle's own compiler calls the C library's fmod, at a version that not every
// machine has. Of the low 64 bits at most 53 are not 0, so their conversion is exact in every rounding mode.
#[tactic(auto, using(crate::proofs::LowBits::not_a_number, crate::proofs::LowBits::its_own, crate::proofs::LowBits::infinite))]
fn remainder(x: f64) -> f64
    ensures { result ≡ rem binary64 x (fin false 1 (pos 64)) }
{
    if x.is_nan() {
        return x;
    }
    let bits = x.to_bits();
    let exponent = bits % SIGN / LEADING;
    if exponent <= EXPONENT_OF_TOP {
        return x;
    }
    if exponent == EXPONENT_OF_INFINITY {
        return f64::NAN;
    }
    let places = (exponent - EXPONENT_OF_LAST) as u32;
    let r = std::num::nearest_u64_to_f64((LEADING + bits % LEADING).unbounded_shl(places));
    if bits >= SIGN { -r } else { r }
}

// A float modulo 2^64, as T writes it.
pub fn wrapped(x: f64) -> u64
    ensures { result ≡ definition.wrapped x }
{
    let r = remainder(x);
    if r < 0.0 {
        let sum = r + TWO_64;
        if sum < TWO_64 {
            return std::num::truncating_f64_to_u64(sum);
        }
        return u64::MAX;
    }
    if r >= 0.0 {
        return std::num::truncating_f64_to_u64(r);
    }
    0
}

// The integer of a value: an integer itself, a float that equals one, otherwise none.
pub fn as_integer(v: ProperValue) -> Option<i64>
    ensures { (l : List ℕ) → found result ≡ definition.as_integer (meaning l v.value) }
{
    match v.value {
        Value::Integer(n) => Some(n),
        Value::Float(x) => integer_of(x.to_bits()),
        Value::NotANumber(_) | Value::Text(_, _) | Value::Other => None,
    }
}

// The number of a value: a float itself, an integer rounded to one, otherwise none.
pub fn as_number(v: ProperValue) -> Option<u64>
    ensures { (l : List ℕ) → found result ≡ definition.as_number (meaning l v.value) }
{
    match v.value {
        Value::Integer(n) => Some(bits_of(n)),
        Value::Float(x) => Some(x.to_bits()),
        Value::NotANumber(b) => Some(b),
        Value::Text(_, _) | Value::Other => None,
    }
}

// What T writes of a float that has no integer.
pub fn as_wrapped(v: ProperValue) -> Option<u64>
    ensures { (l : List ℕ) → found result ≡ wrapped_float (meaning l v.value) }
{
    match v.value {
        Value::Float(x) => Some(wrapped(x)),
        Value::NotANumber(_) => Some(0),
        Value::Integer(_) | Value::Text(_, _) | Value::Other => None,
    }
}
