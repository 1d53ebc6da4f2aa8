// Numerals: leading zeros, and digits that do not count, are passed over by `position`, and the rest is read by recursion.
#![tactic(auto)]

ghost use Rattle.std.specs.Prelude.{◌≡◌, ◌+◌, ◌*◌, ◌^◌, ◌<◌, length, take, drop};
ghost use Rattle.definition.specs.Items.{digits, value, numeral_of};
ghost use Rattle.numeral.specs.Numerals.{digit_first, grown, digit_on, read_on, reached, read_of, short_of};

use definition::Refusal;

// A numeral: its value, and the place after its digits.
#[derive(Clone, Copy)]
pub struct Numeral {
    pub value: u64,
    pub end: usize,
}

// What a numeral shows at once: that there is none, that it is one digit of 1 to 9, or neither. These are three cases, so no Option says them.
#[derive(Clone, Copy)]
pub enum Short {
    Missing,
    Digit(u64),
    Long,
}

// Whether a digit stands at the front.
fn digit_first(text: &[u8]) -> bool
    ensures { result ≡ digit_first text.now }
{
    text.first().is_some_and(u8::is_ascii_digit)
}

// The place after the zeros at the front: the numeral from there has the same value and end.
fn skip_zeros(text: &[u8]) -> usize
    ensures same { value 0 (digits (drop result text.now)) ≡ value 0 (digits text.now) }
    ensures ends { result + length (digits (drop result text.now)) ≡ length (digits text.now) }
{
    text.iter().position(|b| *b != b'0').unwrap_or(text.len())
}

// The number of digits at the front.
fn leading_digits(text: &[u8]) -> usize
    ensures { result ≡ length (digits text.now) }
{
    text.iter()
        .position(|b| !b.is_ascii_digit())
        .unwrap_or(text.len())
}

// The place after the digits at a place; behind the text there are none.
pub fn skip_digits(text: &[u8], at: usize) -> usize
    ensures { result ≡ at + length (digits (drop at text.now)) }
{
    if text.len() <= at {
        return at;
    }
    at + leading_digits(&text[at..])
}

// The number that the digit d makes, after those that made n.
fn grown(n: u64, d: u64) -> Result<Option<u64>, Refusal>
    ensures { result ≡ grown (n * 10 + d) }
{
    match n.checked_mul(10).and_then(|tens| tens.checked_add(d)) {
        Some(m) => Ok(Some(m)),
        _ => Err(Refusal::NumeralTooLarge),
    }
}

// One step of the recursion: the number that the digit at a place makes, after those that made n; none where no byte is left, or no digit stands there.
fn digit_on(text: &[u8], at: usize, n: u64, left: usize) -> Result<Option<u64>, Refusal>
    ensures { result ≡ digit_on n (take left (drop at text.now)) }
{
    let Some(b) = text.get(at) else {
        return Ok(None);
    };
    if left == 0 || !b.is_ascii_digit() {
        return Ok(None);
    }
    grown(n, u64::from(*b - b'0'))
}

// Reads the digits at a place by recursion, one a step, which is a form that the project names, as long as bytes are left: n, which the digits before made, becomes the number that they make, and
// at the place after them. None says that they make 2^64 or more. The slice is lent by a reference, as n and at are, and the answer is a tag
// alone, so that a step compiles to a jump: with a refusal in the answer it is a call, of 23 instructions in place of 16.
fn read_digits(text: &&[u8], at: &mut usize, n: &mut u64, left: usize) -> Option<()>
    requires { length text.now.now < 2 ^ 63 }
    ensures { reached result n.new at.new ≡ read_on n.old at.old (digits (take left (drop at.old text.now.now))) }
{
    match digit_on(*text, *at, *n, left) {
        Ok(None) => Some(()),
        Err(_) => None,
        Ok(Some(m)) => {
            *n = m;
            *at += 1;
            read_digits(text, at, n, left - 1)
        }
    }
}

// The numeral at the front.
pub fn read(text: &[u8]) -> Result<Option<Numeral>, Refusal>
    ensures { result ≡ read_of (numeral_of (digits text.now)) (length (digits text.now)) }
{
    if !digit_first(text) {
        return Ok(None);
    }
    let mut end = skip_zeros(text);
    let mut value = 0;
    let left = text.len() - end;
    match read_digits(&text, &mut end, &mut value, left) {
        Some(()) => Ok(Some(Numeral { value, end })),
        None => Err(Refusal::NumeralTooLarge),
    }
}

// What the numeral at a place shows at once. A digit alone is read with one byte left, and none is too large. A slice in place of the text and
// the place costs 8 % more instructions in 64 i4.
pub fn peek(text: &[u8], at: usize) -> Short
    ensures { result ≡ short_of (digits (drop at text.now)) }
{
    let Some(b) = text.get(at) else {
        return Short::Missing;
    };
    if !b.is_ascii_digit() {
        return Short::Missing;
    }
    if digit_first(&text[at + 1..]) {
        return Short::Long;
    }
    let mut i = at;
    let mut n = 0;
    let _ = read_digits(&text, &mut i, &mut n, 1);
    if n == 0 { Short::Long } else { Short::Digit(n) }
}
