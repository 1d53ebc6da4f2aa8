// Writes into lent bytes.
#![tactic(auto)]

ghost use Rattle.std.specs.Prelude.{◌≡◌, ◌++◌, ◌≤◌, length, drop, replicate};
ghost use Rattle.definition.specs.Bytes.{laid};
ghost use Rattle.words.specs.Digits.{byte_of};

use words::place;

// The byte k of a word, counted from its lowest, and above eight the fill.
#[tactic(auto, using(crate::proofs::Bytes::byte_of_word, crate::proofs::Bytes::byte_of_fill))]
fn byte_of(word: u64, fill: u8, k: usize) -> u8
    ensures { result ≡ byte_of word fill k }
{
    if k < 8 {
        ((word >> (8 * k)) % 256) as u8
    } else {
        fill
    }
}

// Writes an integer byte by byte. The size stands beside the bytes for the constants of `put`: with `out.len()` here, its
// arms are one, the loop never becomes a store, and four bytes cost 95 instructions and not 38. Places and no iterator: which byte is next
// depends on the order.
#[tactic(auto, using(crate::proofs::Bytes::laid_is))]
fn put_bytes(out: &mut [u8], size: usize, big: bool, word: u64, fill: u8)
    requires { size ≡ length out.old }
    ensures { out.new ≡ laid big (length out.old) word fill }
{
    for j in 0..size {
        out[j] = byte_of(word, fill, place(big, size, j));
    }
}

// Writes an integer into all of the bytes: the low bytes of a word, and above eight the fill. Where their count is a
// constant, the loop of `put_bytes` becomes one store. One match on the four sizes would become a jump table, which costs
// more.
pub fn put(out: &mut [u8], big: bool, word: u64, fill: u8)
    ensures { out.new ≡ laid big (length out.old) word fill }
{
    let size = out.len();
    if size < 3 {
        match size {
            1 => put_bytes(out, 1, big, word, fill),
            2 => put_bytes(out, 2, big, word, fill),
            _ => put_bytes(out, size, big, word, fill),
        }
    } else {
        match size {
            4 => put_bytes(out, 4, big, word, fill),
            8 => put_bytes(out, 8, big, word, fill),
            _ => put_bytes(out, size, big, word, fill),
        }
    }
}

// Writes zeros into all of the bytes. The `fill` of std writes the last one apart, which costs 11 instructions more for each
// call from two bytes on.
pub fn put_zeros(out: &mut [u8])
    ensures { out.new ≡ replicate (length out.old) 0 }
{
    for b in out {
        *b = 0;
    }
}

// Writes a text at the front. A loop, since std's `copy_from_slice` is a call of the C library's memmove.
pub fn put_copy(out: &mut [u8], text: &[u8])
    requires { length text.now ≤ length out.old }
    ensures { out.new ≡ text.now ++ drop (length text.now) out.old }
{
    for j in 0..text.len() {
        out[j] = text[j];
    }
}
