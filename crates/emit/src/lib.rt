// Puts the bytes of an item into the record, where `put` asks for it. The flag stands beside the buffer: once an
// `Option<&mut [u8]>` has been lent on to a call, a proof knows nothing more of what it holds. With a const parameter for the flag
// the pass is compiled twice, an item's checks are no longer inlined, and writing costs 33 to 94 % more. The place stands beside
// it too: without `put` it may lie behind the buffer, so that no part of it could be lent.
#![tactic(auto)]

ghost use Rattle.std.specs.Prelude.{◌≡◌, true, cond, ◌++◌, ◌+◌, ◌-◌, ◌≤◌, length, replicate};
ghost use Rattle.std.proofs.Math.Seq.{paste};
ghost use Rattle.definition.specs.Bytes.{laid};
ghost use Rattle.word.specs.Words.{fill_of};

use store::{put as put_integer, put_copy, put_zeros};

// The byte above a word's eight: sign_byte of words, of the bits and not of the integer. sign_byte(to_signed(word)) is the same machine code
// and needs 26 lines of proof, where this one needs none.
fn fill(word: u64) -> u8
    ensures { result ≡ fill_of word }
{
    if word < 0x8000_0000_0000_0000 { 0 } else { 255 }
}

// So many zeros.
pub fn emit_zeros(put: bool, out: &mut [u8], at: usize, n: usize)
    requires { put ≡ true → at + n ≤ length out.old }
    ensures { out.new ≡ cond put (paste out.old at (replicate n 0) n) out.old }
{
    if !put {
        return;
    }
    put_zeros(&mut out[at..at + n]);
}

// A number's part of the record: zeros, and the word.
fn put_number(out: &mut [u8], pads: usize, big: bool, word: u64)
    requires { pads ≤ length out.old }
    ensures { out.new ≡ replicate pads 0 ++ laid big (length out.old - pads) word (fill_of word) }
{
    let (front, number) = out.split_at_mut(pads);
    put_zeros(front);
    put_integer(number, big, word, fill(word));
}

// Zeros, and a word in so many bytes after them.
pub fn emit_number(
    put: bool,
    out: &mut [u8],
    at: usize,
    pads: usize,
    big: bool,
    size: usize,
    word: u64,
)
    requires { put ≡ true → at + (pads + size) ≤ length out.old }
    ensures { out.new ≡ cond put (paste out.old at (replicate pads 0 ++ laid big size word (fill_of word)) (pads + size)) out.old }
{
    if !put {
        return;
    }
    put_number(&mut out[at..at + (pads + size)], pads, big, word);
}

// A text's part of the record: zeros, the text, and zeros.
fn put_text(out: &mut [u8], pads: usize, text: &[u8])
    requires { pads + length text.now ≤ length out.old }
    ensures { out.new ≡ replicate pads 0 ++ (text.now ++ replicate (length out.old - pads - length text.now) 0) }
{
    let (padding, rest) = out.split_at_mut(pads);
    put_zeros(padding);
    put_copy(rest, text);
    put_zeros(&mut rest[text.len()..]);
}

// Zeros, and a text after them, with zeros after it.
pub fn emit_text(put: bool, out: &mut [u8], at: usize, pads: usize, text: &[u8], zeros: usize)
    requires { put ≡ true → at + (pads + (length text.now + zeros)) ≤ length out.old }
    ensures { out.new ≡ cond put (paste out.old at (replicate pads 0 ++ (text.now ++ replicate zeros 0)) (pads + (length text.now + zeros))) out.old }
{
    if !put {
        return;
    }
    put_text(&mut out[at..at + (pads + (text.len() + zeros))], pads, text);
}

// A counted text's part of the record: zeros, the length, and the text.
fn put_counted(out: &mut [u8], pads: usize, big: bool, size: usize, text: &[u8])
    requires { length out.old ≡ pads + (size + length text.now) }
    ensures { out.new ≡ replicate pads 0 ++ (laid big size (length text.now) 0 ++ text.now) }
{
    let (padding, rest) = out.split_at_mut(pads);
    put_zeros(padding);
    put_integer(&mut rest[..size], big, text.len() as u64, 0);
    put_copy(&mut rest[size..], text);
}

// Zeros, and a text after them, with its length before it in so many bytes. It stays apart from `emit_text`, since zeros stand behind
// the one text and a number before the other.
pub fn emit_counted(
    put: bool,
    out: &mut [u8],
    at: usize,
    pads: usize,
    big: bool,
    size: usize,
    text: &[u8],
)
    requires { put ≡ true → at + (pads + (size + length text.now)) ≤ length out.old }
    ensures { out.new ≡ cond put (paste out.old at (replicate pads 0 ++ (laid big size (length text.now) 0 ++ text.now)) (pads + (size + length text.now))) out.old }
{
    if !put {
        return;
    }
    put_counted(
        &mut out[at..at + (pads + (size + text.len()))],
        pads,
        big,
        size,
        text,
    );
}
