// The state: how it is made, what a setting makes of it, its offset in reading, the zeros before an item, and the state after it.
#![tactic(auto)]

ghost use Rattle.std.specs.Prelude.{◌≡◌, ℕ, ◌+◌, ◌-◌, ◌^◌, ◌<◌, ◌≤◌, min, ◌&&◌, nat_le};
ghost use Rattle.definition.specs.States as states;
ghost use Rattle.definition.specs.Reading.{offset_in, at_offset};
ghost use Rattle.definition.specs.Ops.{is_power};
ghost use Rattle.definition.specs.Calls.{at_most_63};
ghost use Rattle.laws.proofs.Ops.{Limited};
ghost use Rattle.definition.specs.Refusals.{answer_of};
ghost use Rattle.align.specs.Amounts.{SameTo63};

use definition::{Field, Offset, Refusal, Setting, State};

// The greatest length.
pub const MAX_LENGTH: u64 = 0x7fff_ffff_ffff_ffff;

// A sum of lengths that is counted up to the greatest one. No buffer is longer. Where 64 bits don't hold the sum, the total is
// above that as it is.
pub fn sum(total: u64, n: u64) -> u64
    requires { n ≤ 2 ^ 63 - 1 }
    ensures { (m : ℕ) → SameTo63 total m → SameTo63 result (m + n) }
{
    total.checked_add(n).unwrap_or(total)
}

// The state with a byte order (true: big), a limit and a length.
pub fn state(big: bool, limit: u64, length: u64) -> State
    ensures { result ≡ states.state big limit length }
{
    State { big, limit, length }
}

// The start state.
pub fn start() -> State
    ensures { result ≡ states.start }
{
    state(false, 1, 0)
}

// The same state, made anew of its parts: for a loop that takes its next state from an enum, so that the parts stay in registers, where
// a copy of the whole would go through memory.
pub fn parts(s: State) -> State
    ensures { result ≡ s }
{
    state(s.big, s.limit, s.length)
}

// The state at an offset in the data, which in reading is its length.
pub fn at_offset(s: State, o: Offset) -> State
    ensures { result ≡ at_offset s o }
{
    state(s.big, s.limit, o.0)
}

// The offset in the data of a state in reading.
pub fn offset_in(s: State) -> Offset
    ensures { result ≡ offset_in s }
{
    Offset(s.length)
}

// The state after a setting.
pub fn set(s: State, x: Setting) -> State
    ensures { result ≡ states.set x s }
{
    match x {
        Setting::Order(big) => state(big, s.limit, s.length),
        Setting::Limit(limit) => state(s.big, limit, s.length),
    }
}

// The state n bytes on. What is asked of a state stands with each function and in no ghost field: continued writing begins at whatever
// state a caller gives, and refuses it by a test.
pub fn further(s: State, n: u64) -> State
    requires { s.length + n ≤ 2 ^ 63 - 1 }
    ensures { result ≡ states.further s n }
{
    state(s.big, s.limit, s.length + n)
}

// Whether n is a power of two of 1 to 16: one that has no bit in common with n - 1, the test by which the compiler makes a mask of the
// remainder in `padding`.
#[tactic(auto, using(crate::proofs::Powers::power_mask, crate::proofs::Powers::power_none))]
pub fn is_power(n: u64) -> bool
    ensures { result ≡ is_power n }
{
    let mask = n.wrapping_sub(1);
    if mask < 16 { n & mask == 0 } else { false }
}

// Whether a state can be continued from: its limit is a power of two of 1 to 16, and its length at most 2^63-1.
pub fn is_sound(s: State) -> bool
    ensures { result ≡ is_power s.limit && at_most_63 s.length }
{
    is_power(s.limit) && s.length <= MAX_LENGTH
}

// The natural alignment of a field: the size of a number, and of the length before the text of s; 1 of what doesn't align.
pub fn natural(f: Field) -> u64
    ensures { result ≡ states.natural f }
{
    match f {
        Field::Number(_, size) => size,
        Field::Counted(size) => size,
        Field::Chars(_) | Field::ZeroEnded => 1,
    }
}

// A natural alignment.
#[derive(Clone, Copy)]
pub struct NaturalAlignment {
    pub bytes: u64,
    ghost positive: { 1 ≤ bytes },
}

// The lesser of a natural alignment and the limit.
fn limited(s: State, natural: u64) -> u64
    ensures { result ≡ min natural s.limit }
{
    natural.min(s.limit)
}

// The lesser of a natural alignment and the limit, unless it is no power of two. It asks nothing of the number, so it takes any.
pub fn alignment(s: State, natural: u64) -> Result<u64, Refusal>
    ensures { answer_of result ≡ states.alignment s natural }
{
    let a = limited(s, natural);
    if is_power(a) {
        Ok(a)
    } else {
        Err(Refusal::AlignmentNoPower)
    }
}

// The fill: the least number that takes n to a multiple of a, from one remainder. The compiler makes a mask of it where it sees
// that a is a power of two.
fn fill(a: u64, n: u64) -> u64
    requires { 1 ≤ a }
    ensures { result ≡ states.fill a n }
{
    let r = n % a;
    if r == 0 { 0 } else { a - r }
}

// The zeros that bring the state to a natural alignment, unless the lesser of it and the limit is no power of two. Of what
// doesn't align no remainder is worked out. No limit is above 16, so the bits of an alignment alone tell whether it is a power.
#[tactic(auto, using(crate::proofs::Powers::unaligned))]
pub fn padding(s: State, natural: NaturalAlignment) -> Result<u64, Refusal>
    requires { Limited s }
    ensures { answer_of result ≡ states.padding s natural.bytes }
{
    let a = limited(s, natural.bytes);
    if a < 2 {
        return Ok(0);
    }
    if a & (a - 1) == 0 {
        return Ok(fill(a, s.length));
    }
    Err(Refusal::AlignmentNoPower)
}

// The state n bytes on, unless its length is above the greatest.
pub fn longer(s: State, n: u64) -> Result<State, Refusal>
    ensures { answer_of result ≡ states.longer s n }
{
    if MAX_LENGTH < n {
        return Err(Refusal::LengthTooLarge);
    }
    if MAX_LENGTH - n < s.length {
        return Err(Refusal::LengthTooLarge);
    }
    Ok(further(s, n))
}

// Whether n bytes more leave the length at most 2^63-1.
pub fn fits(s: State, n: u64) -> bool
    requires { s.length ≤ 2 ^ 63 - 1 }
    ensures { result ≡ nat_le (s.length + n) (2 ^ 63 - 1) }
{
    n <= MAX_LENGTH - s.length
}

// The same of so few bytes that 64 bits hold the sum, which is the length after them: one comparison. With
// `fits` in its place writing costs some 5 % more; a size of c may be too great for the sum, so `fits` stays.
pub fn fits_few(s: State, n: u64) -> bool
    requires { s.length + n < 2 ^ 64 }
    ensures { result ≡ nat_le (s.length + n) (2 ^ 63 - 1) }
{
    s.length + n <= MAX_LENGTH
}
