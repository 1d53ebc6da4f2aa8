// Where writing stands before an item, and before a field's value.
ghost use Rattle.std.specs.Prelude.{◌<◌};
ghost use Rattle.laws.proofs.Calls.{Sound};

use definition::State;
use values::reader::Reader;

// At a field of the value list, in a state.
#[derive(Clone, Copy)]
pub struct Place<'a> {
    pub reader: Reader<'a>,
    pub state: State,
    ghost sound: { Sound state },
}

// A place, and how many zeros go before the value that is put there. That they align it is what each option's method asks as
// `padded`: by its own natural alignment, which a field here would carry along for the proofs alone.
#[derive(Clone, Copy)]
pub struct Padded<'a> {
    pub place: Place<'a>,
    pub pads: u64,
    ghost small: { pads < 16 },
}
