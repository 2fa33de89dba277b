// Texts and numbers in decimal, written into a lent slice.
#![tactic(auto)]

ghost use Rattle.std.specs.Prelude.{◌≡◌, ◌∷◌, [], length};
ghost use Rattle.decimal.specs.Decimal.{decimal};

use itoa::Buffer;

// A text at the front of a lent slice, which grows at its end.
#[derive(Drop)]
pub struct Text<'a> {
    out: &'a mut [u8],
    len: usize,
}

impl<'a> Text<'a> {
    ghost use Rattle.decimal.specs.Text.{Room, Begun, Pushed};

    // Nothing is written yet.
    pub fn new(out: &'a mut [u8]) -> Text<'a>
        ensures { Begun out.entry result }
    {
        Text { out, len: 0 }
    }

    // Its length.
    pub fn len(&self) -> usize
        ensures { result ≡ self.now.len }
    {
        self.len
    }

    // A byte more.
    pub fn push(&mut self, b: u8)
        requires { Room self.old 1 }
        ensures { Pushed (b ∷ []) self.old self.new }
    {
        self.out[self.len] = b;
        self.len += 1;
    }

    // Bytes more.
    pub fn push_bytes(&mut self, bytes: &[u8])
        requires { Room self.old (length bytes.now) }
        ensures { Pushed bytes.now self.old self.new }
    {
        let end = self.len + bytes.len();
        self.out[self.len..end].copy_from_slice(bytes);
        self.len = end;
    }

    // A number in decimal.
    pub fn push_decimal(&mut self, v: u64)
        requires { Room self.old (length (decimal v)) }
        ensures { Pushed (decimal v) self.old self.new }
    {
        let mut digits = Buffer::new();
        self.push_bytes(digits.format(v).as_bytes());
    }
}
