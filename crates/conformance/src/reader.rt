// Bytes and numbers as a line of text writes them: "AB" for a text's bytes, FE or 0304FE for bytes in hexadecimal, i-2 for
// the field of an integer in a value list. A `*` and a number behind one of them repeat it. Spaces between them mean
// nothing. What a buffer has no room for is left out. What is read is given with the text behind it.
//
// A text without its closing `"` goes on with line feeds, and a last digit without a second one is read with the byte behind
// it. Reading takes a turn for each byte, and for what stands before, between and behind parts; it ends, within a part too,
// once it has taken as many as TURNS says.
ghost use Rattle.std.specs.Prelude.{◌≡◌, ◌+◌, ◌<◌, ◌≤◌, length, IfSome};

use crate::parts::Filled;

// What a text begins with as long as a test holds, and the text behind it.
pub fn split_while<F: Fn(u8) -> bool>(text: &[u8], test: F) -> (&[u8], &[u8])
    requires { F.IsAlwaysCallable test }
    ensures { length result.0.now + length result.1.now ≡ length text.now }
{
    let end = text.iter().position(|b| !test(*b)).unwrap_or(text.len());
    text.split_at(end)
}

// The text behind a space at its front, if one stands there.
fn after_space(text: &[u8]) -> &[u8]
    ensures { length result.now ≤ length text.now }
{
    match text {
        [b' ', rest @ ..] => rest,
        _ => text,
    }
}

// The text behind its first byte.
fn after_one(text: &[u8]) -> &[u8]
    ensures { length result.now ≤ length text.now }
{
    match text {
        [_, rest @ ..] => rest,
        [] => text,
    }
}

// The word at a text's front, and the text behind it and a space.
pub fn word_of(text: &[u8]) -> (&[u8], &[u8]) {
    let (word, behind) = split_while(text, |b| b != b' ');
    (word, after_one(behind))
}

// A hexadecimal digit, in upper case; std's to_digit takes small letters too.
fn digit(b: u8) -> Option<u8>
    ensures { IfSome result (λ d. d < 16) }
{
    match b {
        b'0'..=b'9' => Some(b - b'0'),
        b'A'..=b'F' => Some(b - b'A' + 10),
        _ => None,
    }
}

// The hexadecimal digit that a text begins with, if it begins with one.
fn first_digit(text: &[u8]) -> Option<u8>
    ensures { IfSome result (λ d. d < 16) }
{
    digit(*text.first()?)
}

// A number in decimal digits, by its lowest 64 bits, which may have a `-` before it.
fn integer(text: &[u8]) -> (u64, &[u8])
    ensures { length result.1.now ≤ length text.now }
{
    if let [b'-', rest @ ..] = text {
        let (n, behind) = decimal(rest);
        return (n.wrapping_neg(), behind);
    }
    decimal(text)
}

// Not by parse, which refuses what has more than 64 bits. A digit's byte modulo 16 is the digit; a difference from b'0' would ask for
// a clause that the byte is a digit.
fn decimal(text: &[u8]) -> (u64, &[u8])
    ensures { length result.1.now ≤ length text.now }
{
    let (digits, behind) = split_while(text, |b| b.is_ascii_digit());
    let value = digits.iter().fold(0u64, |n, b| {
        n.wrapping_mul(10).wrapping_add(u64::from(*b % 16))
    });
    (value, behind)
}

// The number behind a mark at a text's front, or another one where the mark is missing. A space may stand before and behind it.
// A mark is a byte of the text, compared and not kept, so it is no enum.
pub fn number(text: &[u8], mark: u8, otherwise: u64) -> (u64, &[u8]) {
    match text.split_first() {
        Some((first, rest)) if *first == mark => {
            let (n, behind) = integer(after_space(rest));
            (n, after_space(behind))
        }
        _ => (otherwise, text),
    }
}

// How often the part before a text stands: once, or as often as is said behind a `*`. A 0, or no number there, is once too, since a part is
// read before it is known how often it stands.
fn times(text: &[u8]) -> (u64, &[u8])
    ensures { length result.1.now ≤ length text.now }
{
    match text {
        [b'*', rest @ ..] => integer(rest),
        _ => (1, text),
    }
}

// What the next turn reads.
#[derive(Clone, Copy)]
enum Turn {
    // A space, or what a part begins with.
    Between,
    // A byte of a text, or the quote behind it.
    Text,
    // Two hexadecimal digits, or nothing behind the last ones.
    Digits,
    // The byte of an integer's field that stands at a place.
    Field([u8; 11], usize),
    // Whether the part that was read stands again.
    Behind,
}

// The field of an integer: a tag and a length in three bytes, and the integer in eight.
fn field_of(integer: u64) -> [u8; 11] {
    let [a, b, c, d, e, f, g, h] = integer.to_be_bytes();
    [1, 0, 8, a, b, c, d, e, f, g, h]
}

// Goes over the bytes that a text begins with, turn by turn: an item is a byte, or none in a turn that reads none.
#[derive(Drop)]
struct Reader<'t> {
    turn: Turn,
    // What is left of the text, and what was left where the part begins.
    left: &'t [u8],
    part: &'t [u8],
    // Of a part that stands more than once: how often it is still to be read, and the text behind it.
    again: Option<(u64, &'t [u8])>,
}

impl<'t> Reader<'t> {
    fn new(text: &'t [u8]) -> Reader<'t> {
        Reader {
            turn: Turn::Between,
            left: text,
            part: text,
            again: None,
        }
    }

    // Passes a space, or begins a part. None where neither stands.
    fn begin(&mut self) -> Option<()> {
        let text = self.left;
        self.part = text;
        match text {
            [b' ', rest @ ..] => self.left = rest,
            [b'"', rest @ ..] => {
                self.left = rest;
                self.turn = Turn::Text;
            }
            [b'i', rest @ ..] => {
                let (n, behind) = integer(rest);
                self.left = behind;
                self.turn = Turn::Field(field_of(n), 0);
            }
            _ => {
                first_digit(text)?;
                self.turn = Turn::Digits;
            }
        }
        Some(())
    }

    // A byte, until the quote.
    fn next_of_text(&mut self) -> Option<u8> {
        let text = self.left;
        self.left = after_one(text);
        let b = text.first().copied().unwrap_or(b'\n');
        if b == b'"' {
            self.turn = Turn::Behind;
            return None;
        }
        Some(b)
    }

    // A byte, until there is no digit. A second digit that is missing is 16.
    fn next_of_digits(&mut self) -> Option<u8> {
        let text = self.left;
        let Some(high) = first_digit(text) else {
            self.turn = Turn::Behind;
            return None;
        };
        let rest = after_one(text);
        self.left = after_one(rest);
        Some((high * 16) | first_digit(rest).unwrap_or(16))
    }

    // The byte at a place.
    fn next_of_field(&mut self, field: [u8; 11], at: usize) -> Option<u8> {
        self.turn = if at < 10 {
            Turn::Field(field, at + 1)
        } else {
            Turn::Behind
        };
        field.get(at).copied()
    }

    // Goes back to where the part begins, or on to what stands behind it.
    fn end(&mut self) {
        self.turn = Turn::Between;
        let left = self.left;
        let (n, behind) = self.again.unwrap_or_else(|| times(left));
        if n > 1 {
            self.again = Some((n - 1, behind));
            self.left = self.part;
        } else {
            self.again = None;
            self.left = behind;
        }
    }
}

impl Iterator for Reader<'_> {
    type Item = Option<u8>;

    fn next(&mut self) -> Option<Option<u8>> {
        match self.turn {
            Turn::Between => {
                self.begin()?;
                Some(None)
            }
            Turn::Text => Some(self.next_of_text()),
            Turn::Digits => Some(self.next_of_digits()),
            Turn::Field(field, at) => Some(self.next_of_field(field, at)),
            Turn::Behind => {
                self.end();
                Some(None)
            }
        }
    }
}

// How many turns reading takes at most: more than a line takes that repeats little.
const TURNS: usize = 100000000;

// The bytes that a text begins with, at a buffer's front.
pub fn bytes<'t, 'b>(text: &'t [u8], buffer: &'b mut [u8]) -> (&'b [u8], &'t [u8]) {
    let mut reader = Reader::new(text);
    let mut out = Filled::new(buffer);
    for byte in reader.by_ref().take(TURNS).flatten() {
        out.push(byte);
    }
    (out.bytes(), reader.left)
}

// The arguments of a call: its format, its list or data, and the text behind each.
#[derive(Clone, Copy)]
pub struct Arguments<'t, 'b> {
    pub format: &'b [u8],
    pub list: &'b [u8],
    pub behind_format: &'t [u8],
    pub behind: &'t [u8],
}

// Reads the bytes of a format and those behind it and a mark, each into a buffer.
pub fn take_arguments<'t, 'b>(
    text: &'t [u8],
    format: &'b mut [u8],
    list: &'b mut [u8],
) -> Arguments<'t, 'b> {
    let (format, behind_format) = bytes(text, format);
    let (list, behind) = bytes(after_one(behind_format), list);
    Arguments {
        format,
        list,
        behind_format,
        behind,
    }
}
