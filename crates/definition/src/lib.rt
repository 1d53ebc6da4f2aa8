// The types that the definitions and the code share, and the tags of the value list. The definitions of document 01 are in specs/.
#![tactic(auto)]

ghost use Rattle.std.specs.Prelude.{◌≡◌};
ghost use Rattle.definition.specs.Refusals.{refusal_number};

// Why a call is refused. The discriminant is the refusal's number.
#[derive(Clone, Copy, PartialEq, Eq)]
pub enum Refusal {
    // The format has a byte that is no option, or a byte above 127.
    UnknownOption = 1,
    // A numeral is 2^64 or more.
    NumeralTooLarge = 2,
    // The size of i, I, l, L or s is outside 1 to 16.
    SizeOutside = 3,
    // The limit of ! is outside 1 to 16.
    LimitOutside = 4,
    // The limit of ! is no power of two.
    LimitNoPower = 5,
    // An alignment is above 1 and no power of two.
    AlignmentNoPower = 6,
    // X stands at the end, or before a blank, X, <, >, =, !, c, s, z or x.
    MisplacedX = 7,
    // c has no numeral.
    MissingNumeral = 8,
    // The length, or the list bound's sum, is above 2^63-1.
    LengthTooLarge = 9,
    // z or s has no fixed size, so the format cannot be measured.
    NoFixedSize = 10,
    // No value is left, or no pair of text lengths.
    NoValueLeft = 11,
    // A value has the wrong kind.
    WrongKind = 12,
    // An integer is out of its option's range.
    OutOfRange = 13,
    // A text for z contains a zero.
    ZeroInText = 14,
    // A text is longer than c's size, or than s's length can say.
    TextDoesNotFit = 15,
    // The start position lies outside the data.
    StartOutside = 16,
    // The data end too early.
    DataEnd = 17,
    // An integer does not fit 64 bits.
    IntegerTooWide = 18,
    // A text of z has no zero at its end.
    MissingZero = 19,
    // A text is longer than 65,535 bytes.
    TextAbove65535 = 20,
    // The value list is malformed, a pair of text lengths is not whole, the data or the state's length is above 2^63-1,
    // or the state's limit is no power of two of 1 to 16.
    Malformed = 21,
    // The result is longer than the lent buffer.
    ResultTooLong = 22,
    // The lengths of a run's lists don't end at its last byte.
    DamagedRun = 23,
    // There is no such date, or its year is before 2000.
    NoSuchDate = 24,
    // A day number is above 65,535.
    DayTooLarge = 25,
    // The months are outside 1 to 12.
    MonthsOutside = 26,
    // A least text length is above its greatest.
    LeastAboveGreatest = 27,
}

impl Refusal {
    // Its number, which is the discriminant.
    pub fn number(self) -> u8
        ensures { result ≡ refusal_number self }
    {
        self as u8
    }
}

// Which values a number option takes, and what it makes of them.
#[derive(Clone, Copy)]
pub enum Kind {
    // b h
    SmallSigned,
    // B H
    SmallUnsigned,
    // j
    LuaInteger,
    // J
    LuaUnsigned,
    // T
    Size,
    // f
    Single,
    // d n
    Double,
    // i l
    Signed,
    // I L
    Unsigned,
}

// What takes a value: a number of a kind in so many bytes, c, z, and s with the size of its length.
#[derive(Clone, Copy)]
pub enum Field {
    Number(Kind, u64),
    Chars(u64),
    ZeroEnded,
    Counted(u64),
}

// What changes the byte order (true: big) or the alignment limit.
#[derive(Clone, Copy)]
pub enum Setting {
    Order(bool),
    Limit(u64),
}

// What an item does. Pad(n, k) aligns by n and adds k zeros: x is Pad(1, 1), and X is Pad(natural, 0).
#[derive(Clone, Copy)]
pub enum Op {
    Blank,
    Set(Setting),
    Pad(u64, u64),
    Put(Field),
}

// The state between items: byte order, alignment limit and length so far. The order is a bool (true: big), as the definitions have it.
#[derive(Clone, Copy)]
pub struct State {
    pub big: bool,
    pub limit: u64,
    pub length: u64,
}

// A place in the data, counted from 0.
#[derive(Clone, Copy)]
pub struct Offset(pub u64);

// A place in the data, counted from 1.
#[derive(Clone, Copy)]
pub struct Position(pub u64);

// What continued writing answers: the next state, and how many bytes were written, values used and items run.
#[derive(Clone, Copy)]
pub struct Continued {
    pub next: State,
    pub written: u64,
    pub used: u64,
    pub items: u64,
}

// What reading answers: the length of the value list, and the position after the last byte read.
#[derive(Clone, Copy)]
pub struct Unpacked {
    pub length: u64,
    pub next: Position,
}

// The tags of a value list's fields, and the number of bytes before a field's content. Tags are bytes that a C program writes, so no enum
// holds them: one would add a case for bytes that are no tag.
pub const TAG_OTHER: u8 = 0;

pub const TAG_INTEGER: u8 = 1;

pub const TAG_FLOAT: u8 = 2;

pub const TAG_TEXT: u8 = 3;

pub const HEAD: usize = 3;
