// How far a pass over a format has come, and where an item takes it.
ghost use Rattle.std.specs.Prelude.{◌≡◌, true, cond, ◌<◌, ◌≤◌, length, drop};
ghost use Rattle.definition.specs.Lists.{values};
ghost use Rattle.laws.proofs.Calls.{Sound};
ghost use Rattle.values.specs.Meaning.{is_accepted};

use align::{further, set};
use definition::{Refusal, State};
use emit::{emit_counted, emit_number, emit_text, emit_zeros};
use items::ValidOp;
use plan::item::{Plan, plan_of};
use plan::place::Place;
use values::reader::Reader;

// Where the next item stands, and how many values were used: each takes a byte of the list at least.
#[derive(Clone, Copy)]
pub struct Progress<'a> {
    pub place: Place<'a>,
    pub used: u64,
    ghost few: { used ≤ place.reader.at },
}

impl<'a> Progress<'a> {
    ghost use Rattle.plan.specs.Plans.{wrote};
    ghost use Rattle.write_pass.specs.Walks.{passed, taken, FitsAt, put_at, Stepped};

    // Past an item without a value, to a state.
    fn past(self, state: State) -> Self
        requires { Sound state }
        ensures { passed self.entry state result }
    {
        Progress {
            place: Place {
                reader: self.place.reader,
                state,
            },
            used: self.used,
        }
    }

    // Past an item that takes a value, to a state and to the list's field at an offset.
    fn past_value(self, state: State, next: usize) -> Self
        requires sound { Sound state }
        requires list_sound { is_accepted (values (drop next self.place.reader.list.now)) ≡ true }
        requires behind { self.place.reader.at < next }
        ensures { taken self.entry state next result }
    {
        Progress {
            place: Place {
                reader: Reader {
                    list: self.place.reader.list,
                    at: next,
                },
                state,
            },
            used: self.used + 1,
        }
    }

    // Past one item, whose bytes go to w where they are put; `None` for a blank, which leaves the loop's variables where they are
    // (docs/COST.md has what that saves). The flag and the place in the buffer stand beside it as in emit.
    pub fn advance(
        self,
        op: ValidOp,
        out: &mut [u8],
        w: usize,
        put: bool,
    ) -> Result<Option<Self>, Refusal>
        requires { (put ≡ true → FitsAt (length out.old) w (wrote self.place op.op)) }
        ensures step { Stepped self.entry op.op result }
        ensures bytes { out.new ≡ cond put (put_at out.old w (wrote self.entry.place op.op)) out.old }
    {
        let s = self.place.state;
        let list = self.place.reader.list;
        match plan_of(self.place, op)? {
            Plan::Skip => Ok(None),
            Plan::Set(x) => Ok(Some(self.past(set(s, x)))),
            Plan::Zeros(n) => {
                emit_zeros(put, out, w, n as usize);
                Ok(Some(self.past(further(s, n))))
            }
            Plan::Number {
                pads,
                size,
                word,
                next,
            } => {
                emit_number(put, out, w, pads as usize, s.big, size as usize, word);
                Ok(Some(self.past_value(further(s, pads + size), next)))
            }
            Plan::Text { pads, text, zeros } => {
                let n = pads + (text.length as u64 + zeros);
                emit_text(put, out, w, pads as usize, text.bytes(list), zeros as usize);
                Ok(Some(self.past_value(further(s, n), text.next)))
            }
            Plan::Counted { pads, size, text } => {
                let n = pads + (size + text.length as u64);
                emit_counted(
                    put,
                    out,
                    w,
                    pads as usize,
                    s.big,
                    size as usize,
                    text.bytes(list),
                );
                Ok(Some(self.past_value(further(s, n), text.next)))
            }
        }
    }
}
