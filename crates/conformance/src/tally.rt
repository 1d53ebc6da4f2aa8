// How many cases of a group hold.
use crate::recorded::is_same;
use crate::show::print_line;
use crate::vector::is_held;
use std::io;

// What a line of a group is. An enum: a heading makes it, and a function pointer or a boxed closure may not be handed out.
#[derive(Clone, Copy)]
pub enum Case {
    Vector,
    Recorded,
}

impl Case {
    fn holds(self, line: &[u8]) -> bool {
        match self {
            Case::Vector => is_held(line),
            Case::Recorded => is_same(line),
        }
    }
}

// A group's cases and its name, and how many hold so far.
#[derive(Clone, Copy)]
pub struct Tally<'a> {
    case: Case,
    name: &'a [u8],
    count: u64,
}

impl<'a> Tally<'a> {
    // Of a group without a case.
    pub fn new(case: Case, name: &'a [u8]) -> Tally<'a> {
        Tally {
            case,
            name,
            count: 0,
        }
    }

    // One case more; its line is written if it does not hold. The count saturates, since no type bounds how many lines there are.
    pub fn counted(self, rt: &impl Print, line: &[u8]) -> io::Result<Tally<'a>> {
        if !self.case.holds(line) {
            print_line(rt, line)?;
            return Ok(self);
        }
        Ok(Tally {
            count: self.count.saturating_add(1),
            ..self
        })
    }

    // Writes the name and how many cases hold, if one does.
    pub fn report(self, rt: &impl Print) -> io::Result<()> {
        if self.count == 0 {
            return Ok(());
        }
        rt.write_all(self.name)?;
        println!(rt; "{} ok", self.count)
    }
}
