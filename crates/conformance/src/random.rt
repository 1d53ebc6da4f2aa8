// Formats of 4,096 random bytes, through every call. The buffers have fixed sizes, since nothing is allocated.
use crate::parts::{FILL, Filled, LONG, is_unchanged, room, split};
use crate::reader::number;
use bound::list_bound;
use definition::Refusal;
use measure::string_packsize;
use read::string_unpack;
use std::io;
use write::string_pack;

// Random numbers, by xorshift.
#[derive(Drop)]
struct Xorshift(u64);

impl Iterator for Xorshift {
    type Item = u64;

    fn next(&mut self) -> Option<u64> {
        self.0 ^= self.0 << 13;
        self.0 ^= self.0 >> 7;
        self.0 ^= self.0 << 17;
        Some(self.0)
    }
}

// A byte of an alphabet, or any byte where it is empty.
fn pick(alphabet: &[u8], x: u64) -> u8 {
    let high = x >> 20;
    if alphabet.is_empty() {
        return (high % 256) as u8;
    }
    alphabet[(high % alphabet.len() as u64) as usize]
}

// The field of the value that an option takes: a text, none, or an integer.
fn value_of(option: u8) -> &'static [u8] {
    match option {
        b'z' | b's' => &[3, 0, 2, b'A', b'B'],
        b'<' | b'>' | b'=' | b'!' | b' ' | b'x' => &[],
        _ => &[1, 0, 8, 0, 0, 0, 0, 0, 0, 0, 7],
    }
}

// Fills a format, and a list with a value for each of its bytes as an option.
fn draw(alphabet: &[u8], random: &mut Xorshift, format: &mut [u8], list: &mut Filled<'_>) {
    for (option, x) in format.iter_mut().zip(random) {
        *option = pick(alphabet, x);
        list.put(value_of(*option));
    }
}

// Whether a list writes a record.
fn writes(format: &[u8], list: &[u8], record: &[u8]) -> bool {
    let mut out = room::<LONG>(FILL);
    match string_pack(format, list, &mut out) {
        Ok(n) => split(&out, n).0 == record,
        Err(_) => false,
    }
}

// How many bytes reading data from its start takes. None where the list is not within the bound, does not write again what was
// read, or a byte behind it changed.
fn taken(format: &[u8], data: &[u8]) -> Option<Result<u64, Refusal>> {
    let mut out = room::<LONG>(FILL);
    match string_unpack(format, data, 1, &mut out) {
        Ok(unpacked) => {
            let (list, left) = split(&out, unpacked.length);
            let end = unpacked.next.0.saturating_sub(1);
            let bounded = list_bound(format, data.len() as u64).is_ok_and(|b| unpacked.length <= b);
            let again = writes(format, list, split(data, end).0);
            (bounded && again && is_unchanged(left)).then_some(Ok(end))
        }
        Err(refusal) => is_unchanged(&out).then_some(Err(refusal)),
    }
}

// Whether reading zeros is right.
fn reads_zeros(format: &[u8]) -> bool {
    let data = room::<LONG>(0);
    taken(format, &data).is_some()
}

// Whether the other calls agree with what writing and measuring answered. A format that writing refuses with k is refused
// so by the bound, and by measuring unless a text comes before: the numbers up to 8 are about the format alone. A record is
// as long as is measured, and read to its end. The number is compared, and no case listed: refusals above 8 are those of
// values and data.
fn agrees(
    format: &[u8],
    record: &[u8],
    written: Result<u64, Refusal>,
    measured: Result<u64, Refusal>,
) -> bool {
    let bound = list_bound(format, LONG as u64);
    let fits = measured == written || measured == Err(Refusal::NoFixedSize);
    match written {
        Ok(n) => bound.is_ok() && fits && taken(format, record) == Some(Ok(n)),
        Err(refusal) => refusal.number() > 8 || (bound == Err(refusal) && fits),
    }
}

// Whether a format was measured and written, and whether the answers agree with each other.
#[derive(Clone, Copy)]
struct Trial {
    measured: bool,
    written: bool,
    agree: bool,
}

fn tried(format: &[u8], list: &[u8]) -> Trial {
    let mut out = room::<LONG>(FILL);
    let written = string_pack(format, list, &mut out);
    let measured = string_packsize(format);
    let (record, left) = split(&out, written.unwrap_or(0));
    let agree = reads_zeros(format)
        && agrees(format, record, written, measured)
        && is_unchanged(left);
    Trial {
        measured: measured.is_ok(),
        written: written.is_ok(),
        agree,
    }
}

// How many formats were measured and written, and for how many the answers disagree.
#[derive(Clone, Copy)]
struct Counts {
    measured: u64,
    written: u64,
    disagree: u64,
}

fn try_all(alphabet: &[u8], seed: u64, count: u64) -> Counts {
    let mut random = Xorshift(seed);
    let mut counts = Counts {
        measured: 0,
        written: 0,
        disagree: 0,
    };
    for _ in 0..count {
        let mut format = [0u8; 4096];
        let mut buffer = room::<LONG>(0);
        let mut list = Filled::new(&mut buffer);
        draw(alphabet, &mut random, &mut format, &mut list);
        let trial = tried(&format, list.bytes());
        counts.measured += u64::from(trial.measured);
        counts.written += u64::from(trial.written);
        counts.disagree += u64::from(!trial.agree);
    }
    counts
}

// Tries formats of an alphabet, with a seed and as many as a text says.
pub fn random(rt: &impl Print, alphabet: &[u8], text: &[u8]) -> io::Result<()> {
    let (seed, behind) = number(text, b'/', 1);
    let (count, _) = number(behind, b'/', 1);
    let counts = try_all(alphabet, seed, count);
    print!(rt;
        ": formats {count}, measured {}, written {}",
        counts.measured, counts.written
    )?;
    print!(rt; ", disagree {}", counts.disagree)
}
