// A least and a greatest length. The definitions of document 02, Five, are in specs/, with what is claimed of them.
#![tactic(auto)]

ghost use Rattle.lengths.specs.Claims.{Ranges};
ghost use Rattle.lengths.specs.Examples.{Examples};
ghost use Rattle.lengths.specs.Premises.{Needed};

// Of a text, or of a record.
#[derive(Clone, Copy)]
pub struct Range {
    pub least: u64,
    pub greatest: u64,
}

// The claims, about the definition that the contract of the call names.
pub fn claims()
    ensures { Ranges }
{}

// Worked ranges, and an example for each premise of the claims.
pub fn examples()
    ensures { Examples × Needed }
{}
