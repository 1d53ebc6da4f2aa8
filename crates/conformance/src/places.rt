// Start positions, alignment and lengths.
use crate::vector::Vector;
use align::{NaturalAlignment, is_power, state};
use definition::Refusal;

// A start in data of a length: the position that it means, or 16.
pub fn is_start(v: Vector<'_>) -> bool {
    let expected = v.expected(v.c).ok_or(Refusal::StartOutside);
    match position::offset_of(v.a.cast_signed(), v.b as usize) {
        Ok(o) => o.0 < u64::MAX && Ok(position::position_of(o).0) == expected,
        Err(refusal) => Err(refusal) == expected,
    }
}

// The zeros before what has a natural alignment, at a limit that a state can have and a length, or 6.
pub fn is_padding(v: Vector<'_>) -> bool {
    if v.size == 0 || !is_power(v.b) {
        return false;
    }
    let natural = NaturalAlignment {
        bytes: v.size as u64,
    };
    let expected = v.expected(v.c).ok_or(Refusal::AlignmentNoPower);
    align::padding(state(false, v.b, v.a), natural) == expected
}

// The sum of two lengths, or 9.
pub fn is_longer(v: Vector<'_>) -> bool {
    let expected = v.expected(v.c).ok_or(Refusal::LengthTooLarge);
    align::longer(state(false, 1, v.a), v.b).map(|s| s.length) == expected
}
