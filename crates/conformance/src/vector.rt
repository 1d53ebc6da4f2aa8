// Vectors, which tools/vectors.py makes. A line is a letter, the byte order (< or >), whether an answer is expected (=) or a
// refusal (!), and in hexadecimal a size in one byte, a word in eight, and 16 bytes, which may be two words.
ghost use Rattle.std.specs.Prelude.{◌≤◌};

use crate::floats::{has_integer, has_number, is_wrapped};
use crate::integers::{is_float_field, is_integer_field, is_read, is_word_read, is_written};
use crate::places::{is_longer, is_padding, is_start};
use crate::reader::bytes;
use align::{is_sound, state};
use single::{from_single, to_single};
use values::is_list;
use words::sign_byte;

#[derive(Clone, Copy)]
pub struct Vector<'d> {
    pub size: usize,
    pub big: bool,
    // An answer is expected, and no refusal. A flag: which of the words is the answer, the letter says.
    pub answers: bool,
    // The word, and the 16 bytes after it, also as two words.
    pub a: u64,
    pub b: u64,
    pub c: u64,
    pub data: &'d [u8; 16],
    ghost short: { size ≤ 16 },
}

impl<'d> Vector<'d> {
    // A word if an answer is expected.
    pub fn expected(self, word: u64) -> Option<u64> {
        self.answers.then_some(word)
    }

    // As many of the bytes as the size says.
    pub fn part(self) -> &'d [u8] {
        let data = self.data;
        &data[..self.size]
    }
}

// The vector of its order, whether it answers, and the numbers behind that.
fn vector_of(big: bool, answers: bool, numbers: &[u8]) -> Option<Vector<'_>> {
    let (size, words) = numbers.split_first()?;
    let (a, data) = words.split_first_chunk::<8>()?;
    let (b, c) = data.split_first_chunk::<8>()?;
    if *size > 16 {
        return None;
    }
    Some(Vector {
        size: usize::from(*size),
        big,
        answers,
        a: u64::from_be_bytes(*a),
        b: u64::from_be_bytes(*b),
        c: u64::from_be_bytes(*c.first_chunk::<8>()?),
        data: data.first_chunk::<16>()?,
    })
}

// Whether a vector holds. The letters stand here alone, so they are no enum.
fn holds(letter: u8, v: Vector<'_>) -> bool {
    match letter {
        b'n' => u64::from(to_single(v.a)) == v.b,
        b'w' => from_single((v.a % 4294967296) as u32) == v.b,
        b'i' => has_integer(v),
        b'r' => has_number(v),
        b't' => is_wrapped(v),
        b'p' => is_written(v, sign_byte(v.a.cast_signed())),
        b'q' => is_written(v, 0),
        b'v' => is_integer_field(v),
        b'y' => is_float_field(v),
        b's' => is_read(v),
        b'u' => is_word_read(v),
        b'k' => is_list(v.part()) == v.answers,
        b'o' => is_start(v),
        b'a' => is_padding(v),
        b'l' => is_longer(v),
        b'd' => is_sound(state(false, v.b, v.a)) == v.answers,
        _ => false,
    }
}

// Whether a line's vector holds. What the line doesn't have is 0, and no mark. The buffer has a fixed size, since nothing is allocated.
pub fn is_held(line: &[u8]) -> bool {
    let Some(letter) = line.first() else {
        return false;
    };
    let mut numbers = [0u8; 25];
    bytes(line.get(6..).unwrap_or(&[]), &mut numbers);
    let big = line.get(2) == Some(&b'>');
    let answers = line.get(4) == Some(&b'=');
    vector_of(big, answers, &numbers).is_some_and(|v| holds(*letter, v))
}
