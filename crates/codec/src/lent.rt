// A lent buffer that fills from its front: what is put stands before `at`, where the next byte goes. How much room a function asks for stands in its
// clause (`HasRoom`): each puts another number of bytes, and a type for each room would be no plainer. Where bytes go and what is put stay two parameters, since no fact
// is about both.
ghost use Rattle.std.specs.Prelude.{◌≡◌, ◌≤◌, [], ◌∷◌, length, take};
ghost use Rattle.codec.specs.Little.{le2, le4};
ghost use Rattle.codec.specs.Lent.{HasRoom, Grown};

#[derive(Drop)]
pub struct Lent<'a> {
    pub buf: &'a mut [u8],
    pub at: usize,
}

impl<'a> Lent<'a> {
    pub fn new(buf: &'a mut [u8]) -> Lent<'a>
        ensures same { result.buf.ghost_name ≡ buf.entry.ghost_name }
        ensures bytes { result.buf.now ≡ buf.old }
        ensures start { result.at ≡ 0 }
    {
        Lent { buf, at: 0 }
    }

    // What is put.
    pub fn filled(&self) -> &[u8]
        requires { self.now.at ≤ length self.now.buf.now }
        ensures { result.now ≡ take self.now.at self.now.buf.now }
    {
        &self.buf[..self.at]
    }

    pub fn put_byte(&mut self, b: u8)
        requires { HasRoom 1 self.old }
        ensures { Grown 1 self.old self.new (b ∷ []) }
    {
        self.buf[self.at] = b;
        self.at += 1;
    }

    pub fn put_bytes(&mut self, bytes: &[u8])
        requires { HasRoom (length bytes.now) self.old }
        ensures { Grown (length bytes.now) self.old self.new bytes.now }
    {
        let end = self.at + bytes.len();
        self.buf[self.at..end].copy_from_slice(bytes);
        self.at = end;
    }

    // A number's 2 bytes, the lowest first.
    pub fn put_u16(&mut self, n: u16)
        requires { HasRoom 2 self.old }
        ensures { Grown 2 self.old self.new (le2 n) }
    {
        self.put_bytes(&n.to_le_bytes());
    }

    // A number's 4 bytes, the lowest first.
    pub fn put_u32(&mut self, n: u32)
        requires { HasRoom 4 self.old }
        ensures { Grown 4 self.old self.new (le4 n) }
    {
        self.put_bytes(&n.to_le_bytes());
    }
}
