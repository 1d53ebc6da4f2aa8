// The settings at a format's front, which need no value and put no byte.
#![tactic(auto)]

ghost use Rattle.options.specs.Packed.{table_at};
ghost use Rattle.front.specs.Leading.{Leads};

use align::{set, start};
use definition::{Op, State};
use format::cursor::Cursor;
use options::OptionTable;

// Where the first item stands that is neither a setting nor a blank, and the state there.
#[derive(Clone, Copy)]
pub struct Front {
    pub at: usize,
    pub state: State,
}

// What the settings at a format's front lead to from the start state. Writing what is behind them from there is writing all.
pub fn settings(table: &OptionTable, format: &[u8]) -> Front
    ensures { Leads (table_at table.now.entries) format.now result.at result.state }
{
    // A loop, since it stops at the first item that is neither: a walk goes on to the end. A refusal ends it too.
    let mut c = Cursor::new();
    let mut s = start();
    while let Some((item, next)) = c.next(table, format).unwrap_or(None) {
        match item.op().op {
            Op::Blank => {}
            Op::Set(x) => s = set(s, x),
            Op::Pad(_, _) | Op::Put(_) => break,
        }
        c = next;
    }
    Front { at: c.at, state: s }
}
