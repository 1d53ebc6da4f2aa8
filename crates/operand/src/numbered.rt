// An option that may have a numeral.
ghost use Rattle.std.specs.Prelude.{◌≤◌, ◌<◌};

// Its entry, as the table packs it.
#[derive(Clone, Copy)]
pub struct Numbered {
    pub entry: u8,
    ghost low: { 192 ≤ entry },
    ghost high: { entry < 248 },
}
