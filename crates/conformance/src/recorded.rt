// Recorded answers, of the original or of a plain reading, and ours to the same calls. A line is a case:
//   m FORMAT = SIZE                          measuring
//   w FORMAT / LIST = RECORD                 writing
//   r FORMAT / DATA / START = LIST / NEXT    reading
//   t FORMAT / RUN = TRAY                    a tray
//   l FORMAT / PAIRS = LEAST / GREATEST      a range of lengths
// A refusal has ! in place of = and what follows it; behind that of a tray stands / PLACE, and behind that of a range its
// number. Any other letter is reading too, and a START that writing or a tray has is passed over.
// `compare/run record FILE` makes the lines. The buffers have fixed sizes, since nothing is allocated.
use crate::parts::FILL;
use crate::reader::{bytes, number, take_arguments};
use definition::{Refusal, Unpacked};
use lengths::Range;
use measure::string_packsize;
use range::packsize_range;
use read::string_unpack;
use tray::{TrayRefusal, pack_tray};
use write::string_pack;

// What writing, a tray or reading answers: a length, and the next position of reading, or 0, as has_number takes a missing mark.
#[derive(Clone, Copy)]
struct Answer {
    length: u64,
    next: u64,
}

impl From<u64> for Answer {
    fn from(length: u64) -> Answer {
        Answer { length, next: 0 }
    }
}

impl From<Unpacked> for Answer {
    fn from(unpacked: Unpacked) -> Answer {
        Answer {
            length: unpacked.length,
            next: unpacked.next.0,
        }
    }
}

// Whether a number stands behind a mark, and ends the line; 0 where there is no mark. The mark is a byte, as in number.
fn has_number(text: &[u8], mark: u8, x: u64) -> bool {
    let (n, behind) = number(text, mark, 0);
    n == x && behind.is_empty()
}

// Whether the answer that a text says is ours: the same bytes at the front of the buffer, and no other byte changed; the same
// next position, or place of a refused record, if there is one. Behind the mark of a refusal stand no bytes. A buffer of one
// byte more shows that more bytes stand there than ours has room for.
fn is_answer<A: Into<Answer>, E: Into<TrayRefusal>>(
    text: &[u8],
    answer: Result<A, E>,
    out: &[u8],
) -> bool {
    let (mark, length, x) = match answer {
        Ok(given) => {
            let a: Answer = given.into();
            (b'=', a.length, a.next)
        }
        Err(refusal) => {
            let refused: TrayRefusal = refusal.into();
            (b'!', 0, refused.place)
        }
    };
    let Some((first, rest)) = text.split_first() else {
        return false;
    };
    let mut expected = [FILL; 1025];
    let (given, behind) = bytes(rest, &mut expected);
    let is_length = given.len() as u64 == length;
    *first == mark && is_length && has_number(behind, b'/', x) && expected.starts_with(out)
}

// Whether the size that a text says is ours.
fn is_size(text: &[u8], answer: Result<u64, Refusal>) -> bool {
    match answer {
        Ok(size) => has_number(text, b'=', size),
        Err(_) => has_number(text, b'!', 0),
    }
}

// Whether the range that a text says is ours: both lengths, or the number of the refusal.
fn is_range(text: &[u8], answer: Result<Range, Refusal>) -> bool {
    match answer {
        Ok(range) => {
            let (least, behind) = number(text, b'=', 0);
            least == range.least && has_number(behind, b'/', range.greatest)
        }
        Err(refusal) => has_number(text, b'!', u64::from(refusal.number())),
    }
}

// Whether our answer to a line's case is the recorded one. The letters stand here alone, so they are no enum.
pub fn is_same(line: &[u8]) -> bool {
    let Some((letter, text)) = line.split_first() else {
        return false;
    };
    let mut format_room = [0u8; 1024];
    let mut list_room = [0u8; 1024];
    let a = take_arguments(text, &mut format_room, &mut list_room);
    let (start, behind) = number(a.behind, b'/', 1);
    let mut out = [FILL; 1024];
    match letter {
        b'm' => is_size(a.behind_format, string_packsize(a.format)),
        b'l' => is_range(a.behind, packsize_range(a.format, a.list)),
        b'w' => {
            let answer = string_pack(a.format, a.list, &mut out);
            is_answer(behind, answer, &out)
        }
        b't' => {
            let answer = pack_tray(a.format, a.list, &mut out);
            is_answer(behind, answer, &out)
        }
        _ => {
            let answer = string_unpack(a.format, a.list, start.cast_signed(), &mut out);
            is_answer(behind, answer, &out)
        }
    }
}
