// Profiles: a call, with our answer written behind it. A line is a label, a call and its arguments:
//   measure FORMAT
//   bound FORMAT / DATA LENGTH
//   write FORMAT / LIST / ROOM
//   read FORMAT / DATA / START / ROOM
//   first FORMAT / LIST                continued writing from the start state
//   next FORMAT / LIST                 continued writing from the state of the line before
//   state / BIG / LIMIT / LENGTH       sets that state
//   any ALPHABET / SEED / COUNT        so many random formats of 4,096 bytes, through every call
// The numbers at the end may be missing: a long buffer, start 1. Of a call only the first letter counts: t is a tray, with
// the arguments of write, and another letter, or none, is reading whose list is written in bytes. Before their ROOM these
// two and write may have a start, whose mark is the byte 0.
use crate::parts::{FILL, LONG, is_unchanged, room, split};
use crate::random::random;
use crate::reader::{Arguments, number, take_arguments, word_of};
use crate::show::{print_bytes, print_list};
use align::start;
use bound::list_bound;
use definition::{Continued, Refusal, State, Unpacked};
use measure::string_packsize;
use read::string_unpack;
use std::io;
use tray::pack_tray;
use write::{pack_continued, string_pack};

// The mark before a start where the call is not read.
const OTHER_MARK: u8 = 0;

fn print_refusal(rt: &impl Print, refusal: Refusal) -> io::Result<()> {
    print!(rt; ": refused {}", refusal.number())
}

// A size or a bound.
fn print_length(rt: &impl Print, answer: Result<u64, Refusal>) -> io::Result<()> {
    match answer {
        Ok(length) => print!(rt; ": {length}"),
        Err(refusal) => print_refusal(rt, refusal),
    }
}

// The bytes of a record.
fn print_record(rt: &impl Print, record: &[u8]) -> io::Result<()> {
    if record.is_empty() {
        return print!(rt; ": no bytes");
    }
    print!(rt; ":")?;
    print_bytes(rt, record)
}

// A value list, or its length where it is long.
fn print_values(rt: &impl Print, list: &[u8]) -> io::Result<()> {
    match list.len() {
        0 => print!(rt; ": no values"),
        1..=999 => {
            print!(rt; ":")?;
            print_list(rt, list)
        }
        n => print!(rt; ": a list of {n}"),
    }
}

// Whether a byte changed that an answer leaves as it was.
fn print_change(rt: &impl Print, left: &[u8]) -> io::Result<()> {
    if is_unchanged(left) {
        return Ok(());
    }
    print!(rt; "; changed")
}

// What writing gave.
fn print_written(rt: &impl Print, answer: Result<u64, Refusal>, out: &[u8]) -> io::Result<()> {
    match answer {
        Ok(length) => {
            let (record, left) = split(out, length);
            print_record(rt, record)?;
            print_change(rt, left)
        }
        Err(refusal) => {
            print_refusal(rt, refusal)?;
            print_change(rt, out)
        }
    }
}

// What reading gave.
fn print_read(rt: &impl Print, answer: Result<Unpacked, Refusal>, out: &[u8]) -> io::Result<()> {
    match answer {
        Ok(unpacked) => {
            let (list, left) = split(out, unpacked.length);
            print_values(rt, list)?;
            print!(rt; "; next {}", unpacked.next.0)?;
            print_change(rt, left)
        }
        Err(refusal) => {
            print_refusal(rt, refusal)?;
            print_change(rt, out)
        }
    }
}

// The first bytes of a buffer, as many as a text says.
fn lent<'b>(text: &[u8], out: &'b mut [u8]) -> &'b mut [u8] {
    let (size, _) = number(text, b'/', LONG as u64);
    let n = out.len().min(size as usize);
    &mut out[..n]
}

// Writes what a call puts into a buffer, given a start and the buffer; the start's mark is the byte 0.
fn put<F: Fn(i64, &mut [u8]) -> Result<u64, Refusal>>(
    rt: &impl Print,
    text: &[u8],
    call: F,
) -> io::Result<()>
    requires { F.IsAlwaysCallable call }
{
    let (start, behind) = number(text, OTHER_MARK, 1);
    let mut out = room::<LONG>(FILL);
    let answer = call(start.cast_signed(), lent(behind, &mut out));
    print_written(rt, answer, &out)
}

fn write(rt: &impl Print, a: Arguments<'_, '_>) -> io::Result<()> {
    put(rt, a.behind, |_, out| string_pack(a.format, a.list, out))
}

fn tray(rt: &impl Print, a: Arguments<'_, '_>) -> io::Result<()> {
    put(rt, a.behind, |_, out| {
        pack_tray(a.format, a.list, out).map_err(|refused| refused.refusal)
    })
}

// Reading whose list is written as a record is.
fn read_bytes(rt: &impl Print, a: Arguments<'_, '_>) -> io::Result<()> {
    put(rt, a.behind, |start, out| {
        string_unpack(a.format, a.list, start, out).map(|unpacked| unpacked.length)
    })
}

fn read(rt: &impl Print, a: Arguments<'_, '_>) -> io::Result<()> {
    let (start, behind) = number(a.behind, b'/', 1);
    let mut out = room::<LONG>(FILL);
    let answer = string_unpack(
        a.format,
        a.list,
        start.cast_signed(),
        lent(behind, &mut out),
    );
    print_read(rt, answer, &out)
}

fn print_continued(rt: &impl Print, c: Continued) -> io::Result<()> {
    let next = c.next;
    print!(rt;
        "; state {} / {} / {}",
        u8::from(next.big),
        next.limit,
        next.length
    )?;
    print!(rt;
        "; written {}, values {}, items {}",
        c.written, c.used, c.items
    )
}

// Continued writing from a state; the next one.
fn continued(rt: &impl Print, a: Arguments<'_, '_>, state: State) -> io::Result<State> {
    let mut out = room::<LONG>(FILL);
    let answer = pack_continued(state, a.format, a.list, &mut out);
    print_written(rt, answer.map(|c| c.written), &out)?;
    let Ok(c) = answer else {
        return Ok(state);
    };
    print_continued(rt, c)?;
    Ok(c.next)
}

// The state that three numbers say.
fn state_of(text: &[u8]) -> State {
    let (big, behind) = number(text, b'/', 0);
    let (limit, behind) = number(behind, b'/', 1);
    let (length, _) = number(behind, b'/', 0);
    align::state(big > 0, limit, length)
}

// Answers a call, and gives the state for the next line. A call is known by its first letter; without one of these it is one
// that reads bytes. The letters stand here alone, so they are no enum.
fn answered(rt: &impl Print, call: &[u8], a: Arguments<'_, '_>, state: State) -> io::Result<State> {
    match call {
        [b'm', ..] => print_length(rt, string_packsize(a.format))?,
        [b'b', ..] => {
            let (data_length, _) = number(a.behind_format, b'/', 0);
            print_length(rt, list_bound(a.format, data_length))?;
        }
        [b'w', ..] => write(rt, a)?,
        [b't', ..] => tray(rt, a)?,
        [b'r', ..] => read(rt, a)?,
        [b'f', ..] => return continued(rt, a, start()),
        [b'n', ..] => return continued(rt, a, state),
        [b's', ..] => return Ok(state_of(a.behind_format)),
        [b'a', ..] => random(rt, a.format, a.behind_format)?,
        _ => read_bytes(rt, a)?,
    }
    Ok(state)
}

// Writes a line and the answer to it, and gives the state for the next one. Not inlined, since the caller would pay for the
// long buffers on each line.
#[inline(never)]
pub fn print_profile(rt: &impl Print, line: &[u8], state: State) -> io::Result<State> {
    rt.write_all(line)?;
    let (_, behind) = word_of(line);
    let (call, text) = word_of(behind);
    let mut format = room::<LONG>(0);
    let mut list = room::<LONG>(0);
    let a = take_arguments(text, &mut format, &mut list);
    let next = answered(rt, call, a, state)?;
    println!(rt)?;
    Ok(next)
}
