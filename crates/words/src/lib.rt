// Integers and their 64 bits, in two's complement, and where their bytes stand.
#![tactic(auto)]

ghost use Rattle.std.specs.Prelude.{◌≡◌, ◌<◌};
ghost use Rattle.definition.specs.Bytes.{bits, sign, extent, signed};
ghost use Rattle.words.specs.Digits.{place_of};

// The least word of a negative integer.
const SIGN: u64 = 0x8000_0000_0000_0000;

// n for n, and n for -1 - n, as the definitions count: no integer is out of range.
pub fn extent(x: i64) -> u64
    ensures { result ≡ extent x }
{
    if x < 0 { (-1 - x) as u64 } else { x as u64 }
}

// The 64 bits of an integer: of a negative one by a wrapping subtract, which is stated of the integer as the definition is, where a cast
// would be stated of its bits.
pub fn to_word(x: i64) -> u64
    ensures { result ≡ bits x }
{
    let n = extent(x);
    if x < 0 { 0u64.wrapping_sub(n + 1) } else { n }
}

// The integer of 64 bits: a negative one by a wrapping subtract, a form that the project names.
pub fn to_signed(word: u64) -> i64
    ensures { result ≡ signed 8 word }
{
    if word < SIGN {
        word as i64
    } else {
        let n = 0u64.wrapping_sub(word) - 1;
        -1 - n as i64
    }
}

// The byte that an integer above eight bytes is filled with.
pub fn sign_byte(x: i64) -> u8
    ensures { result ≡ sign x }
{
    if x < 0 { 255 } else { 0 }
}

// Where the byte k of an integer, counted from its lowest, stands among its bytes.
pub fn place(big: bool, size: usize, k: usize) -> usize
    requires { k < size }
    ensures { (result ≡ place_of big size k) × (result < size) }
{
    if big { size - 1 - k } else { k }
}
