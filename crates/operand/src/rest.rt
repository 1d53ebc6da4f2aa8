// What follows an option's byte.
ghost use Rattle.std.specs.Prelude.{◌≡◌, ◌≤◌, length, drop};

// A format, and the place in it behind an option's byte. A slice in place of the two is made before it is known whether it is needed: 64 i4
// then cost 8 % more instructions.
#[derive(Clone, Copy)]
pub struct Rest<'a> {
    pub format: &'a [u8],
    pub at: usize,
    ghost inside: { at ≤ length format.now },
}

impl<'a> Rest<'a> {
    // The bytes from there on.
    pub(crate) fn bytes(self) -> &'a [u8]
        ensures { result.now ≡ drop self.entry.at self.entry.format.now }
    {
        &self.format[self.at..]
    }
}
