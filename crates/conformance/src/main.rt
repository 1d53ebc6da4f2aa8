// Runs what its standard input holds through our calls: vectors made by tools/vectors.py, recorded answers of the original or of
// a plain reading, and profiles, for which the file stdout has document 01's answers, worked out by hand.
//
// A line that begins with # names a group: #v one of vectors, #r one of recorded answers, and of a group it is written how
// many cases there are, and each that does not hold. The lines below any other # are profiles: each line is written with our
// answer behind it; a # with a space behind it is a heading, and written. The files vector.rt, recorded.rt and profile.rt say
// what their lines are, reader.rt how they write bytes. Where a read or a write fails, the program ends with that error.
#![tactic(auto)]

mod floats;
mod input;
mod integers;
mod parts;
mod places;
mod profile;
mod random;
mod reader;
mod recorded;
mod show;
mod tally;
mod vector;

use align::start;
use definition::State;
use input::read_full;
use parts::room;
use profile::print_profile;
use show::print_line;
use std::io;
use tally::{Case, Tally};

// What the lines below a heading are: cases, or profiles, with the state that continued writing is in.
#[derive(Clone, Copy)]
enum Group<'a> {
    Cases(Tally<'a>),
    Profiles(State),
}

impl<'a> Group<'a> {
    // The group that a heading begins; its line is written if a space stands behind the #. The name stands behind one byte
    // more than the letter; where that byte is missing, it is the text up to the heading's end. The letters stand here alone,
    // as those of vector.rt, and a Case says what they mean.
    fn begun(rt: &impl Print, heading: &'a [u8], text: &'a [u8]) -> io::Result<Group<'a>> {
        let name = match heading {
            [_, _, _, name @ ..] => name,
            _ => text,
        };
        match heading {
            [_, b'v', ..] => Ok(Group::Cases(Tally::new(Case::Vector, name))),
            [_, b'r', ..] => Ok(Group::Cases(Tally::new(Case::Recorded, name))),
            _ => {
                if let [_, b' ', ..] = heading {
                    print_line(rt, heading)?;
                }
                Ok(Group::Profiles(start()))
            }
        }
    }

    // Writes what there is to say of a group that ends.
    fn report(self, rt: &impl Print) -> io::Result<()> {
        match self {
            Group::Cases(tally) => tally.report(rt),
            Group::Profiles(_) => Ok(()),
        }
    }

    // The group of the next line, given the text up to that line's end.
    fn next(self, rt: &impl Print, line: &'a [u8], text: &'a [u8]) -> io::Result<Group<'a>> {
        if line.starts_with(b"#") {
            self.report(rt)?;
            return Group::begun(rt, line, text);
        }
        match self {
            Group::Cases(tally) => Ok(Group::Cases(tally.counted(rt, line)?)),
            Group::Profiles(state) => Ok(Group::Profiles(print_profile(rt, line, state)?)),
        }
    }
}

fn run(rt: &impl Print, text: &[u8]) -> io::Result<()> {
    let mut group = Group::Profiles(start());
    let mut at = 0usize;
    for whole in text.split_inclusive(|b| *b == b'\n') {
        let line = whole.strip_suffix(b"\n").unwrap_or(whole);
        let end = at.saturating_add(line.len());
        group = group.next(rt, line, text.get(..end).unwrap_or(text))?;
        at = at.saturating_add(whole.len());
    }
    group.report(rt)
}

fn main(rt: HostRuntime) -> io::Result<()> {
    let mut input = room::<1048576>(0);
    run(&rt, read_full(&mut rt.reader(), &mut input)?)
}
