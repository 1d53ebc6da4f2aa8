// Integers in bytes.
use crate::vector::Vector;
use load::{get_signed, get_unsigned};
use words::to_word;

// An integer's bytes, with a fill above eight.
pub fn is_written(v: Vector<'_>, fill: u8) -> bool {
    let mut out = [0u8; 16];
    store::put(&mut out[..v.size], v.big, v.a, fill);
    *v.data == out
}

// The field of an integer in a value list.
pub fn is_integer_field(v: Vector<'_>) -> bool {
    let mut out = [0u8; 16];
    fields::put_integer(&mut out, v.a.cast_signed());
    *v.data == out
}

// The field of a float.
pub fn is_float_field(v: Vector<'_>) -> bool {
    let mut out = [0u8; 16];
    fields::put_float(&mut out, v.a);
    *v.data == out
}

// An integer, or that it doesn't fit 64 bits.
pub fn is_read(v: Vector<'_>) -> bool {
    get_signed(v.part(), v.big).map(to_word) == v.expected(v.a)
}

// An integer that is not negative, or that it doesn't fit 64 bits.
pub fn is_word_read(v: Vector<'_>) -> bool {
    get_unsigned(v.part(), v.big) == v.expected(v.a)
}
