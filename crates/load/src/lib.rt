// Reads integers of data.
#![tactic(auto)]

ghost use Rattle.std.specs.Prelude.{◌≡◌, ◌^◌, ◌<◌, length};
ghost use Rattle.definition.specs.Bytes.{total, signed, low};
ghost use Rattle.definition.specs.Fields.{all};
ghost use Rattle.words.specs.Digits.{low_bytes, high_bytes};
ghost use Rattle.load.specs.Numbers.{unsigned_of, unsigned_at, signed_of, signed_at};

use words::{place, sign_byte, to_signed};

// Of size bytes, those that hold bits.
fn low(size: usize) -> usize
    ensures { result ≡ low size }
{
    size.min(8)
}

// The number that the low bytes write, byte by byte. The size stands beside the bytes for the constants of `get_word`:
// with `bytes.len()` here, its arms are one, and the loop never becomes a load: 138 instructions, and not 78. Places and no iterator: which
// byte is next depends on the order.
fn get_bytes(bytes: &[u8], size: usize, big: bool) -> u64
    requires { size ≡ length bytes.now }
    ensures { (result ≡ total (low_bytes big (length bytes.now) bytes.now)) × (result < 256 ^ low (length bytes.now)) }
{
    let mut word: u64 = 0;
    for k in 0..low(size) {
        let b = bytes[place(big, size, k)];
        word += u64::from(b) << (8 * k);
    }
    word
}

// The number that the low bytes write: of all the bytes, the lowest eight. Where their count is a constant, the loop of
// `get_bytes` becomes one load. One match on the four sizes would become a jump table, which costs more.
pub fn get_word(bytes: &[u8], big: bool) -> u64
    ensures { (result ≡ total (low_bytes big (length bytes.now) bytes.now)) × (result < 256 ^ low (length bytes.now)) }
{
    let size = bytes.len();
    if size < 3 {
        match size {
            1 => get_bytes(bytes, 1, big),
            2 => get_bytes(bytes, 2, big),
            _ => get_bytes(bytes, size, big),
        }
    } else {
        match size {
            4 => get_bytes(bytes, 4, big),
            8 => get_bytes(bytes, 8, big),
            _ => get_bytes(bytes, size, big),
        }
    }
}

// The integer of a word that the low bytes write. Below eight bytes the sign is restored: half of 256 ^ size is added and,
// by a wrapping subtract, taken away again.
fn restored(size: usize, word: u64) -> i64
    requires { word < 256 ^ low size }
    ensures { result ≡ signed (low size) word }
{
    if size < 8 {
        let count: u64 = 1 << (8 * size);
        let half = count / 2;
        to_signed(((word + half) % count).wrapping_sub(half))
    } else {
        to_signed(word)
    }
}

// Whether each byte above the lowest eight is the fill.
fn is_filled(bytes: &[u8], big: bool, fill: u8) -> bool
    ensures { result ≡ all fill (high_bytes big (length bytes.now) bytes.now) }
{
    let size = bytes.len();
    // Up to eight bytes there is none, and no walk to set up.
    size <= 8 || (8..size).all(|k| bytes[place(big, size, k)] == fill)
}

// An integer that is not negative; none where it doesn't fit 64 bits.
pub fn get_unsigned(bytes: &[u8], big: bool) -> Option<u64>
    ensures { unsigned_of result ≡ unsigned_at big (length bytes.now) bytes.now }
{
    if is_filled(bytes, big, 0) {
        Some(get_word(bytes, big))
    } else {
        None
    }
}

// An integer; none where it doesn't fit 64 bits.
pub fn get_signed(bytes: &[u8], big: bool) -> Option<i64>
    ensures { signed_of result ≡ signed_at big (length bytes.now) bytes.now }
{
    let x = restored(bytes.len(), get_word(bytes, big));
    if is_filled(bytes, big, sign_byte(x)) {
        Some(x)
    } else {
        None
    }
}
