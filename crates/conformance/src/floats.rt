// Floats: as_integer, as_number and T.
use crate::vector::Vector;
use numbers::{as_integer, as_number, as_wrapped};
use single::to_single;
use values::proper::ProperValue;
use values::{Value, field_at, is_list};
use words::to_word;

// The float of 64 bits, written into a value list and read from it.
fn listed(bits: u64) -> ProperValue {
    let mut list = [0u8; 11];
    fields::put_float(&mut list, bits);
    if is_list(&list)
        && let Some((value, _)) = field_at(&list, 0)
    {
        return ProperValue { value };
    }
    ProperValue {
        value: Value::Other,
    }
}

// The integer of a float, or none.
pub fn has_integer(v: Vector<'_>) -> bool {
    as_integer(listed(v.a)).map(to_word) == v.expected(v.b)
}

// The f64 of an integer, and its f32.
pub fn has_number(v: Vector<'_>) -> bool {
    let x = ProperValue {
        value: Value::Integer(v.a.cast_signed()),
    };
    as_number(x).is_some_and(|b| b == v.b && u64::from(to_single(b)) == v.c)
}

// What T writes of a float: its integer, else its remainder.
pub fn is_wrapped(v: Vector<'_>) -> bool {
    let x = listed(v.a);
    let integer = as_integer(x).map(to_word);
    as_wrapped(x) == Some(v.c) && integer.unwrap_or(v.c) == v.b
}
