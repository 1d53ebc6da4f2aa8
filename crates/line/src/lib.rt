// The program's answer to an input, and the line that shows it.
#![tactic(auto)]

ghost use Rattle.std.specs.Prelude.{◌≡◌, true, Some};
ghost use Rattle.definition.specs.Program.{first_line, line, printed};
ghost use Rattle.definition.specs.Refusals.{answer_of};
ghost use Rattle.line.specs.Lines.{settled, Stands};

use definition::Refusal;
use measure::string_packsize;
use std::fmt;

// The greatest length of a format in the input.
const MAX_FORMAT: usize = 4096;

// An answer, which `{}` writes as the line that is printed.
#[derive(Clone, Copy)]
pub struct Answer(pub Result<u64, Refusal>);

impl fmt::Display for Answer {
    ghost output = { λ a. Some (line (answer_of a.0)) };

    fn fmt<W: fmt::Write>(&self, f: &mut fmt::Formatter<W>) -> fmt::Result {
        match self.0 {
            Ok(n) => writeln!(f, "size {n}"),
            Err(r) => writeln!(f, "refused {}", r.number()),
        }
    }
}

// The first line, without its line feed.
fn first_line(input: &[u8]) -> &[u8]
    ensures { result.now ≡ first_line input.now }
{
    let n = input
        .iter()
        .position(|b| *b == b'\n')
        .unwrap_or(input.len());
    &input[..n]
}

// Whether the answer to an input stands, whatever follows it: its first line is complete, or too long.
#[tactic(auto, using(crate::proofs::Inputs::settled_long, crate::proofs::Inputs::settled_short))]
pub fn is_settled(input: &[u8]) -> bool
    ensures told { result ≡ settled input.now }
    ensures stands { result ≡ true → Stands input.now }
{
    let n = first_line(input).len();
    MAX_FORMAT < n || n < input.len()
}

// The answer to an input.
#[tactic(auto, using(crate::proofs::Inputs::printed_long, crate::proofs::Inputs::printed_short))]
pub fn answer_to(input: &[u8]) -> Answer
    ensures { line (answer_of result.0) ≡ printed input.now }
{
    let format = first_line(input);
    if MAX_FORMAT < format.len() {
        return Answer(Err(Refusal::ResultTooLong));
    }
    Answer(string_packsize(format))
}
