//! A piece of a line, which is put together from its end and printed at once.

ghost use Rattle.std.specs.Prelude.{◌≡◌, ◌≤◌, ◌<◌, ◌+◌, ◌++◌, ◌∷◌, [], length, decimal};
ghost use Rattle.std.specs.Fmt.{signed_decimal};

use itoa::write_digits;
use std::marker::Model;

/// Up to 48 bytes: each thing comes before those that are there.
#[derive(Drop)]
pub struct Piece {
    bytes: [u8; 48],
    start: usize,
}

impl Model for Piece {
    ghost use Rattle.std.specs.Prelude.{◌≤◌, List, ℕ, drop};

    ghost Value = { List ℕ };

    ghost view = { λ p. drop p.start p.bytes };

    ghost invariant = { λ p. p.start ≤ 48 };
}

impl Piece {
    /// No byte.
    #[inline(always)]
    pub fn new() -> Piece
        ensures { result ≡ [] }
    {
        Piece {
            bytes: [0; 48],
            start: 48,
        }
    }

    /// Puts a byte before the others.
    #[inline(always)]
    pub fn byte(&mut self, byte: u8)
        requires { length self.old < 48 }
        ensures { self.new ≡ byte ∷ self.old }
    {
        self.start -= 1;
        self.bytes[self.start] = byte;
    }

    /// Puts a number before the others.
    #[inline(always)]
    pub fn number(&mut self, n: u64)
        requires { length self.old + 20 ≤ 48 }
        ensures text { self.new ≡ decimal n ++ self.old }
        ensures short { length self.new ≤ length self.old + 20 }
    {
        self.start = write_digits(n, &mut self.bytes, self.start);
    }

    /// Puts a number with its sign before the others.
    #[inline(always)]
    pub fn int(&mut self, n: i64)
        requires { length self.old + 21 ≤ 48 }
        ensures text { self.new ≡ signed_decimal n ++ self.old }
        ensures short { length self.new ≤ length self.old + 21 }
    {
        self.number(n.unsigned_abs());
        if n < 0 {
            self.byte(b'-');
        }
    }

    /// The bytes.
    #[inline(always)]
    pub fn as_slice(&self) -> &[u8]
        ensures { result.now ≡ self.now }
    {
        &self.bytes[self.start..]
    }
}
