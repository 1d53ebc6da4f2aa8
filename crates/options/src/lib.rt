// The option table: a number for each byte value, which packs its class, its size and its numeral rule.
#![tactic(auto)]

ghost use Rattle.std.specs.Prelude.{◌≡◌};
ghost use Rattle.definition.specs.Options.{options};
ghost use Rattle.laws.proofs.Ops.{Sizes, sizes_prop};
ghost use Rattle.options.specs.Packed.{entry_at, table_at, kind_at, size_at};

use definition::Kind;

// A number is sixteen times a class, and the size:
// below 112 a number of fixed size, by its kind, 84 for f;
// 112 blank, 128 < and =, 144 >, 160 x, 176 z, which have no operand, and the size 0;
// 196 i and l, 212 I and L, 232 s, 240 c, 244 !, which may have a numeral;
// 248 X, 252 no option.
// The table holds numbers and no enum, and an entry is unpacked only where an item is asked what it does: with an enum, or unpacked at once,
// the cursor's `next` is no longer inlined, and 64 f cost twice as much (docs/DECISIONS.md).
pub const OPTIONS: [u8; 256] = [
    252, 252, 252, 252, 252, 252, 252, 252, 252, 112, 112, 252, 252, 112, 252, 252, 252, 252, 252,
    252, 252, 252, 252, 252, 252, 252, 252, 252, 252, 252, 252, 252, 112, 244, 252, 252, 252, 252,
    252, 252, 252, 252, 252, 252, 252, 252, 252, 252, 252, 252, 252, 252, 252, 252, 252, 252, 252,
    252, 252, 252, 128, 128, 144, 252, 252, 252, 17, 252, 252, 252, 252, 252, 18, 212, 56, 252,
    212, 252, 252, 252, 252, 252, 252, 252, 72, 252, 252, 252, 248, 252, 252, 252, 252, 252, 252,
    252, 252, 252, 1, 240, 104, 252, 84, 252, 2, 196, 40, 252, 196, 252, 104, 252, 252, 252, 252,
    232, 252, 252, 252, 252, 160, 252, 176, 252, 252, 252, 252, 252, 252, 252, 252, 252, 252, 252,
    252, 252, 252, 252, 252, 252, 252, 252, 252, 252, 252, 252, 252, 252, 252, 252, 252, 252, 252,
    252, 252, 252, 252, 252, 252, 252, 252, 252, 252, 252, 252, 252, 252, 252, 252, 252, 252, 252,
    252, 252, 252, 252, 252, 252, 252, 252, 252, 252, 252, 252, 252, 252, 252, 252, 252, 252, 252,
    252, 252, 252, 252, 252, 252, 252, 252, 252, 252, 252, 252, 252, 252, 252, 252, 252, 252, 252,
    252, 252, 252, 252, 252, 252, 252, 252, 252, 252, 252, 252, 252, 252, 252, 252, 252, 252, 252,
    252, 252, 252, 252, 252, 252, 252, 252, 252, 252, 252, 252, 252, 252, 252, 252, 252, 252, 252,
    252, 252, 252, 252, 252, 252, 252, 252,
];

// Where the ranges of the numbers end: numbers of fixed size; what has no operand; i and l; I and L; s; c; !; X.
pub const FIXED_END: u8 = 112;

pub const PLAIN_END: u8 = 192;

pub const SIGNED_END: u8 = 208;

pub const UNSIGNED_END: u8 = 224;

pub const COUNTED_END: u8 = 240;

pub const CHARS_END: u8 = 244;

pub const LIMIT_END: u8 = 248;

pub const ALIGN_END: u8 = 252;

// f
pub const SINGLE: u8 = 84;

// A table by which formats are read, for a caller to lend to the cursor. Every number of fixed size has 1 to 16 bytes in it.
#[derive(Clone, Copy)]
pub struct OptionTable {
    pub entries: [u8; 256],
    ghost sizes: { Sizes (table_at entries) } by { sizes_prop (table_at entries) },
}

// The entry of a byte.
pub fn entry(entries: &[u8; 256], b: u8) -> u8
    ensures { entry_at result ≡ table_at entries.now b }
{
    entries[b as usize]
}

impl OptionTable {
    // The entry of a byte.
    pub fn entry(&self, b: u8) -> u8
        ensures { entry_at result ≡ table_at self.now.entries b }
    {
        entry(&self.entries, b)
    }
}

// The option table. A caller keeps it for a whole call, since each use copies it.
pub fn table() -> OptionTable
    ensures { table_at result.entries ≡ options }
{
    OptionTable { entries: OPTIONS }
}

// The kind of a number of fixed size, which its entry packs: the table says why it is no enum.
#[tactic(auto, unfolding(crate::specs::Packed::kind_at))]
pub fn kind_of(e: u8) -> Kind
    ensures { result ≡ kind_at e }
{
    match e / 16 {
        0 => Kind::SmallSigned,
        1 => Kind::SmallUnsigned,
        2 => Kind::LuaInteger,
        3 => Kind::LuaUnsigned,
        4 => Kind::Size,
        5 => Kind::Single,
        _ => Kind::Double,
    }
}

// The size of a number or of the length of s, without a numeral; 0 of an option that has no operand.
pub fn size_of(e: u8) -> u64
    ensures { result ≡ size_at e }
{
    u64::from(e % 16)
}
