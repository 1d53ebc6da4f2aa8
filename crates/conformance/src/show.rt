// Writes bytes and value lists to standard output, as reader.rt reads them.
use definition::{HEAD, TAG_INTEGER};
use std::io;

// A line of the input.
pub fn print_line(rt: &impl Print, line: &[u8]) -> io::Result<()> {
    rt.write_all(line)?;
    println!(rt)
}

// Bytes in hexadecimal; more than eight that are the same by their number. Functions that print, and no type with a Display: bytes are
// printed at two places and a list at one, so a wrapper and its impl would be longer.
pub fn print_bytes(rt: &impl Print, bytes: &[u8]) -> io::Result<()> {
    bytes
        .chunk_by(|a, b| a == b)
        .try_for_each(|same| print_same(rt, same))
}

// A byte. Its digits are written by themselves: by `{:02X}` a long record takes two and a half times the instructions.
fn print_byte(rt: &impl Print, b: u8) -> io::Result<()> {
    let digits = b"0123456789ABCDEF";
    rt.write_all(&[
        b' ',
        digits[usize::from(b / 16)],
        digits[usize::from(b % 16)],
    ])
}

// Bytes that are the same.
fn print_same(rt: &impl Print, same: &[u8]) -> io::Result<()> {
    if let [b, ..] = same
        && same.len() > 8
    {
        print_byte(rt, *b)?;
        return print!(rt; "*{}", same.len());
    }
    for b in same {
        print_byte(rt, *b)?;
    }
    Ok(())
}

// A field of a value list: that of an integer as a line writes it, another by its bytes.
fn print_field(rt: &impl Print, field: &[u8]) -> io::Result<()> {
    if let [TAG_INTEGER, _, _, content @ ..] = field
        && let Some(integer) = content.first_chunk::<8>()
    {
        return print!(rt; " i{}", i64::from_be_bytes(*integer));
    }
    print_bytes(rt, field)
}

// The fields of a value list. The crate values takes one apart by a function of its own; a list that is cut off ends here.
pub fn print_list(rt: &impl Print, list: &[u8]) -> io::Result<()> {
    let mut left = list;
    while let [_, high, low, ..] = left {
        let end = HEAD + usize::from(u16::from_be_bytes([*high, *low]));
        let Some((field, rest)) = left.split_at_checked(end) else {
            return Ok(());
        };
        print_field(rt, field)?;
        left = rest;
    }
    Ok(())
}
