// Parts of slices, and buffers. Their sizes are fixed, since the programs allocate nothing.
ghost use Rattle.std.specs.Prelude.{◌≡◌, ◌≤◌, length};

// What every byte of a result buffer is before a call.
pub const FILL: u8 = 238;

// The first n bytes, and those behind them: all, and none, where there are fewer.
pub fn split(s: &[u8], n: u64) -> (&[u8], &[u8]) {
    s.split_at(s.len().min(n as usize))
}

// Whether each byte is the one that a result buffer has before a call.
pub fn is_unchanged(s: &[u8]) -> bool {
    s.iter().all(|b| *b == FILL)
}

// A buffer that is filled from its front. What it has no room for is left out.
#[derive(Drop)]
pub struct Filled<'b> {
    buffer: &'b mut [u8],
    count: usize,
    ghost inside: { count ≤ length buffer.now },
}

impl<'b> Filled<'b> {
    // With nothing in it.
    pub fn new(buffer: &'b mut [u8]) -> Filled<'b> {
        Filled { buffer, count: 0 }
    }

    // Puts bytes behind those that it has.
    pub fn put(&mut self, bytes: &[u8]) {
        let room = &mut self.buffer[self.count..];
        let n = room.len().min(bytes.len());
        room[..n].copy_from_slice(&bytes[..n]);
        self.count += n;
    }

    // Puts one byte behind them.
    pub fn push(&mut self, byte: u8) {
        if let Some(place) = self.buffer.get_mut(self.count) {
            *place = byte;
            self.count += 1;
        }
    }

    // The bytes that it has.
    pub fn bytes(self) -> &'b [u8] {
        let Filled { buffer, count } = self;
        &buffer[..count]
    }
}

// How many bytes a long buffer has.
pub const LONG: usize = 70000;

// A buffer, every byte of it the same.
pub fn room<const N: usize>(fill: u8) -> [u8; N]
    ensures { N ≡ length result }
{
    [fill; N]
}
