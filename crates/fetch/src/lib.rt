// What one item does to the state and reads of the data, or its refusal.
#![tactic(auto)]

ghost use Rattle.std.specs.Prelude.{◌≡◌, ◌+◌, ◌^◌, ◌<◌};
ghost use Rattle.fetch.specs.Fetching.{after_of};

pub mod place;

use decode::rest::Rest;
use decode::{Decoded, Reading};
use definition::{Offset, State};
use position::further;

// What an item does.
#[derive(Clone, Copy)]
pub enum Fetched {
    // The next state, and no value.
    Set(State),
    // A value, and the offset after it.
    Read(Reading, Offset),
}

// What was decoded of the rest of the data, and the offset after it.
fn after(rest: Rest, x: Decoded) -> Fetched
    requires { rest.at.0 + x.size < 2 ^ 64 }
    ensures { result ≡ after_of rest.entry.at x }
{
    Fetched::Read(x.reading, further(rest.at, x.size))
}
