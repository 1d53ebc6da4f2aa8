// The operand of an option: its size, limit, length or alignment, by its numeral or without one. An option is told by its entry as the table
// packs it (options says why).
#![tactic(auto)]

ghost use Rattle.std.specs.Prelude.{◌≡◌, ◌≤◌, ◌<◌, drop};
ghost use Rattle.definition.specs.Options.{Table};
ghost use Rattle.definition.specs.Ops.{size_or, limit_or};
ghost use Rattle.definition.specs.Items.{Missing, Value};
ghost use Rattle.definition.specs.Refusals.{answer_of, answer_by};
ghost use Rattle.options.specs.Packed.{entry_at, table_at};
ghost use Rattle.operand.specs.Operands.{operand_by, operand_at, natural_at, shown_at, pair_of, behind_of, NumeralBehind};

pub mod numbered;
pub mod rest;

use crate::numbered::Numbered;
use crate::rest::Rest;
use align::is_power;
use definition::Refusal;
use numeral::{Short, peek, read, skip_digits};
use options::{
    ALIGN_END, CHARS_END, COUNTED_END, FIXED_END, LIMIT_END, OptionTable, PLAIN_END, SINGLE,
    UNSIGNED_END, size_of,
};

// An operand, and how many bytes the option takes.
#[derive(Clone, Copy)]
pub struct Operand {
    pub value: u64,
    pub taken: usize,
}

// What X takes: the alignment and how many bytes; or an option whose size with its numeral is the alignment.
#[derive(Clone, Copy)]
pub enum Behind {
    By(Operand),
    Numeral(Numbered),
}

// The size n.
fn size(n: u64) -> Result<u64, Refusal>
    ensures { answer_of result ≡ size_or 0 (Value n) }
{
    if !(1..=16).contains(&n) {
        return Err(Refusal::SizeOutside);
    }
    Ok(n)
}

// The alignment limit n.
fn limit(n: u64) -> Result<u64, Refusal>
    ensures { answer_of result ≡ limit_or 0 (Value n) }
{
    if !(1..=16).contains(&n) {
        return Err(Refusal::LimitOutside);
    }
    if !is_power(n) {
        return Err(Refusal::LimitNoPower);
    }
    Ok(n)
}

// The operand of an option with the numeral n.
#[tactic(auto, using(crate::proofs::Entries::sized_by, crate::proofs::Entries::chars_by, crate::proofs::Entries::limit_by))]
fn with_numeral(option: Numbered, n: u64) -> Result<u64, Refusal>
    ensures { answer_of result ≡ operand_by (entry_at option.entry).class (entry_at option.entry).size (Value n) }
{
    if option.entry < COUNTED_END {
        return size(n);
    }
    if option.entry < CHARS_END {
        return Ok(n);
    }
    limit(n)
}

// The operand of an option that may have a numeral and has none.
#[tactic(auto, using(crate::proofs::Entries::sized_by, crate::proofs::Entries::chars_by, crate::proofs::Entries::limit_by))]
fn without_numeral(option: Numbered) -> Result<u64, Refusal>
    ensures { answer_of result ≡ operand_by (entry_at option.entry).class (entry_at option.entry).size Missing }
{
    if option.entry < COUNTED_END {
        return Ok(size_of(option.entry));
    }
    if option.entry < CHARS_END {
        return Err(Refusal::MissingNumeral);
    }
    Ok(8)
}

// The operand of an option that may have a numeral.
fn by_numeral(rest: &[u8], option: Numbered) -> Result<Operand, Refusal>
    ensures { (t : Table) → answer_by pair_of result ≡ operand_at t (entry_at option.entry) rest.now }
{
    let numeral = read(rest)?;
    match numeral {
        None => Ok(Operand {
            value: without_numeral(option)?,
            taken: 0,
        }),
        Some(n) => Ok(Operand {
            value: with_numeral(option, n.value)?,
            taken: n.end,
        }),
    }
}

// What X takes.
fn behind_x(table: &OptionTable, rest: &[u8]) -> Result<Behind, Refusal>
    ensures same { behind_of (table_at table.now.entries) result rest.now ≡ natural_at (table_at table.now.entries) rest.now }
    ensures numeral { NumeralBehind result rest.now }
{
    let Some(&b) = rest.first() else {
        return Err(Refusal::MisplacedX);
    };
    if 128 <= b {
        return Err(Refusal::UnknownOption);
    }
    let e = table.entry(b);
    if e == SINGLE {
        return Ok(Behind::By(Operand {
            value: 4,
            taken: skip_digits(rest, 1),
        }));
    }
    if e < FIXED_END {
        return Ok(Behind::By(Operand {
            value: size_of(e),
            taken: 1,
        }));
    }
    if e < PLAIN_END {
        return Err(Refusal::MisplacedX);
    }
    if e < UNSIGNED_END {
        return Ok(Behind::Numeral(Numbered { entry: e }));
    }
    if e < ALIGN_END {
        return Err(Refusal::MisplacedX);
    }
    Ok(Behind::By(Operand { value: 1, taken: 1 }))
}

// The operand of an option that may have a numeral, of X, or the refusal of a byte that is no option. Behind X an option with a numeral
// has the operand that it has by itself. The lower bound stands by itself, since X and what is no option come to it too.
fn operand_of(table: &OptionTable, rest: &[u8], e: u8) -> Result<Operand, Refusal>
    requires low { 192 ≤ e }
    ensures { answer_by pair_of result ≡ operand_at (table_at table.now.entries) (entry_at e) rest.now }
{
    if e < LIMIT_END {
        return by_numeral(rest, Numbered { entry: e });
    }
    if e < ALIGN_END {
        return match behind_x(table, rest)? {
            Behind::By(x) => Ok(x),
            Behind::Numeral(option) => {
                let x = operand_of(table, &rest[1..], option.entry)?;
                Ok(Operand {
                    value: x.value,
                    taken: x.taken + 1,
                })
            }
        };
    }
    Err(Refusal::UnknownOption)
}

// What the numeral of an option shows at once. An option that takes nothing has none; X, and what is no option, count as long.
fn shown(rest: Rest<'_>, e: u8) -> Short
    ensures { result ≡ shown_at e (drop rest.entry.at rest.entry.format.now) }
{
    if e < PLAIN_END {
        return Short::Missing;
    }
    if LIMIT_END <= e {
        return Short::Long;
    }
    peek(rest.format, rest.at)
}

// The operand of an option, by what follows its byte. What needs no numeral, or has one digit of 1 to 9 that it accepts, is seen at once.
pub fn operand_at(table: &OptionTable, rest: Rest<'_>, e: u8) -> Result<Operand, Refusal>
    ensures { answer_by pair_of result ≡ operand_at (table_at table.now.entries) (entry_at e) (drop rest.entry.at rest.entry.format.now) }
{
    match shown(rest, e) {
        Short::Missing if e < COUNTED_END => Ok(Operand {
            value: size_of(e),
            taken: 0,
        }),
        Short::Digit(d) if e < CHARS_END || is_power(d) => Ok(Operand { value: d, taken: 1 }),
        _ => operand_of(table, rest.bytes(), e),
    }
}
