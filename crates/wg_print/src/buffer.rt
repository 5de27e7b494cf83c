ghost use Rattle.std.specs.Prelude.{◌≡◌, ◌≤◌, ◌<◌, ◌+◌, ◌++◌, ◌∷◌, [], length, take, List, ℕ};

use std::marker::Model;

/// At most 4,096 bytes, in an array.
#[derive(Drop)]
pub struct Buffer {
    bytes: [u8; 4096],
    len: usize,
}

impl Model for Buffer {
    ghost Value = { List ℕ };

    ghost view = { λ b. take b.len b.bytes };

    ghost invariant = { λ b. b.len ≤ 4096 };
}

impl Buffer {
    pub fn new() -> Buffer
        ensures { result ≡ [] }
    {
        Buffer {
            bytes: [0; 4096],
            len: 0,
        }
    }

    pub fn len(&self) -> usize
        ensures { result ≡ length self.now }
    {
        self.len
    }

    /// For how many more bytes there is room.
    pub fn room(&self) -> usize
        ensures { length self.now + result ≡ 4096 }
    {
        4096 - self.len
    }

    pub fn push(&mut self, byte: u8)
        requires { length self.old < 4096 }
        ensures { self.new ≡ self.old ++ byte ∷ [] }
    {
        self.bytes[self.len] = byte;
        self.len += 1;
    }

    pub fn extend(&mut self, text: &[u8])
        requires { length self.old + length text.now ≤ 4096 }
        ensures { self.new ≡ self.old ++ text.now }
    {
        if let [byte] = text {
            self.push(*byte);
            return;
        }
        let end = self.len + text.len();
        self.bytes[self.len..end].copy_from_slice(text);
        self.len = end;
    }

    pub fn as_slice(&self) -> &[u8]
        ensures { result.now ≡ self.now }
    {
        &self.bytes[..self.len]
    }

    pub fn clear(&mut self)
        ensures { self.new ≡ [] }
    {
        self.len = 0;
    }
}
