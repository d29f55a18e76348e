//! A short text that is written from its end.

ghost use Rattle.std.specs.Prelude.{◌≡◌, ◌+◌, ◌<◌, ◌≤◌, ◌^◌, ℕ, List, [], ◌∷◌, ◌++◌, drop, length, decimal};

use std::marker::Model;

/// At most 40 bytes, of which the last was written first.
#[derive(Drop)]
pub struct Tail {
    bytes: [u8; 40],
    start: usize,
}

impl Model for Tail {
    ghost Value = { List ℕ };

    ghost view = { λ t. drop t.start t.bytes };

    ghost invariant = { λ t. t.start ≤ 40 };
}

impl Tail {
    /// The empty text.
    pub fn new() -> Tail
        ensures { result ≡ [] }
    {
        Tail {
            bytes: [0; 40],
            start: 40,
        }
    }

    /// Puts a byte in front.
    pub fn put(&mut self, byte: u8)
        requires { length self.old < 40 }
        ensures { self.new ≡ byte ∷ self.old }
    {
        self.start -= 1;
        self.bytes[self.start] = byte;
    }

    /// Puts a number in front.
    pub fn put_number(&mut self, number: u128)
        requires size { number < 10 ^ 18 }
        requires room { length self.old + 18 ≤ 40 }
        ensures text { self.new ≡ decimal number ++ self.old }
        ensures short { length self.new ≤ length self.old + 18 }
    {
        let mut rest = number;
        while rest >= 10 {
            self.put(b'0' + (rest % 10) as u8);
            rest /= 10;
        }
        self.put(b'0' + rest as u8);
    }

    /// The bytes.
    pub fn as_slice(&self) -> &[u8]
        ensures { result.now ≡ self.now }
    {
        &self.bytes[self.start..]
    }
}
