// A value whose case suits it: a Float is no NaN, and a NotANumber is one.
ghost use Rattle.values.specs.Meaning.{Proper, proper_prop};

use crate::Value;

#[derive(Clone, Copy)]
pub struct ProperValue {
    pub value: Value,
    ghost proper: { Proper value } by { proper_prop value },
}
