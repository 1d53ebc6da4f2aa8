// The texts that options take of the value list.
ghost use Rattle.std.specs.Prelude.{◌≡◌, ◌+◌, ◌≤◌, length, take, drop};
ghost use Rattle.definition.specs.Fields as fields;

use definition::Refusal;
use values::Value;
use values::reader::Reader;

// A text of the list: where it starts, its length, and where the list's next field starts.
// A place and not the bytes: a plan then says it of the list that its place is in.
#[derive(Clone, Copy)]
pub struct Text {
    pub start: usize,
    pub length: usize,
    pub next: usize,
    ghost short: { length ≤ 65535 },
}

impl Text {
    ghost use Rattle.plan.specs.Texts.{TextRead};

    // The text of a list's field: 11, 12.
    pub fn at(reader: Reader) -> Result<Text, Refusal>
        ensures { TextRead reader.entry result }
    {
        let (value, next) = reader.field().ok_or(Refusal::NoValueLeft)?;
        let Value::Text(start, length) = value else {
            return Err(Refusal::WrongKind);
        };
        Ok(Text {
            start,
            length,
            next,
        })
    }

    // Its bytes.
    pub fn bytes<'a>(self, list: &'a [u8]) -> &'a [u8]
        requires { self.start + self.length ≤ length list.now }
        ensures { result.now ≡ take self.length (drop self.start list.now) }
    {
        &list[self.start..self.start + self.length]
    }
}

// Whether a zero stands in a text. All of its bytes are looked at, so that the loop goes over many at a time.
pub fn has_zero(text: &[u8]) -> bool
    ensures { result ≡ fields.has_zero text.now }
{
    let mut found = false;
    for b in text {
        if *b == 0 {
            found = true;
        }
    }
    found
}
