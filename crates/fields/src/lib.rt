// Writes the fields of a value list at the front of lent bytes: a tag, a length in two bytes, big-endian, and content.
#![tactic(auto)]

ghost use Rattle.std.specs.Prelude.{◌≡◌, [], ◌∷◌, ◌++◌, ◌+◌, ◌≤◌, length, drop};
ghost use Rattle.definition.specs.Values as definition;
ghost use Rattle.definition.specs.Lists.{big, list_of};

use definition::{HEAD, TAG_FLOAT, TAG_INTEGER, TAG_TEXT};
use store::{put, put_copy};
use words::to_word;

// A number of up to eight bytes, the highest first.
#[tactic(auto, using(laws::proofs::Lists::laid_big))]
fn put_number(out: &mut [u8], v: u64)
    requires { length out.old ≤ 8 }
    ensures { out.new ≡ big (length out.old) v }
{
    put(out, true, v, 0);
}

// A field's tag, which definition says why it is a byte, and length.
fn put_head(out: &mut [u8], tag: u8, n: u64)
    requires { 3 ≤ length out.old }
    ensures { out.new ≡ tag ∷ big 2 n ++ drop 3 out.old }
{
    out[0] = tag;
    put_number(&mut out[1..HEAD], n);
}

// A field whose content is eight bytes. The content goes first, so that its stores become one. As `&mut [u8; 11]` the three
// functions of eleven bytes would ask for nothing, but `first_chunk_mut` in their caller costs 3 to 8 instructions a number.
fn put_eight(out: &mut [u8], tag: u8, word: u64)
    requires { 11 ≤ length out.old }
    ensures { out.new ≡ tag ∷ big 2 8 ++ big 8 word ++ drop 11 out.old }
{
    put_number(&mut out[HEAD..HEAD + 8], word);
    put_head(out, tag, 8);
}

// The field of an integer.
#[tactic(auto, using(crate::proofs::Storing::integer_field))]
pub fn put_integer(out: &mut [u8], z: i64)
    requires { 11 ≤ length out.old }
    ensures { out.new ≡ list_of (definition.integer z ∷ []) ++ drop 11 out.old }
{
    put_eight(out, TAG_INTEGER, to_word(z));
}

// The field of a float, of its 64 bits.
#[tactic(auto, using(crate::proofs::Storing::float_field))]
pub fn put_float(out: &mut [u8], bits: u64)
    requires { 11 ≤ length out.old }
    ensures { out.new ≡ list_of (definition.float bits ∷ []) ++ drop 11 out.old }
{
    put_eight(out, TAG_FLOAT, bits);
}

// The field of a text.
pub fn put_text(out: &mut [u8], text: &[u8])
    requires { 3 + length text.now ≤ length out.old }
    ensures { out.new ≡ list_of (definition.text text.now ∷ []) ++ drop (3 + length text.now) out.old }
{
    put_head(out, TAG_TEXT, text.len() as u64);
    put_copy(&mut out[HEAD..], text);
}
