// What is claimed of the definitions, as contracts: the claims, and why they have their premises. The laws that prove them,
// which the code's proofs cite too, are in proofs/.
#![tactic(auto)]

ghost use Rattle.laws.specs.Claims.{Demand, Continuing, Returned, Rooms, Numbered, Bounded, Decimals, Fills};
ghost use Rattle.laws.specs.Premises.{Needed, Divided, Prefixed};
ghost use Rattle.laws.specs.Trays.{Trays, TraysNeeded, TraysLong};

// The claims, about the definitions that the contracts of the calls name.
pub fn claims()
    ensures { Demand × Continuing × Returned × Rooms × Numbered × Bounded × Decimals × Fills × Trays }
{}

// An example for each of their premises, one of a format that is divided into parts, one of padding before the length of s,
// and trays of the longest records.
pub fn examples()
    ensures { Needed × Divided × Prefixed × TraysNeeded × TraysLong }
{}
