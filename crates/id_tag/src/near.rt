//! A hash by which neighbours stand in a row in a table: the frames of neighbouring contexts, or neighbouring cells.

ghost use Rattle.std.specs.Prelude.{◌≡◌, ◌+◌, ◌≤◌, fold, length};
ghost use Rattle.id_tag.specs.Near.{folded, half, mix, nothing_read, number, shift_of};

use std::hash::{BuildHasher, Hasher};

/// Hashes the names of matching frames, and cells by their index and then their structure. The lowest byte of the first
/// number of 64 bits, which is a context's serial number or a cell's index, shifts the hash by itself, and everything
/// else is mixed. So 64 neighbouring contexts have their frames for one iteration in a row, in the order in which the
/// machine comes to them, and each such row begins where chance has it; and so do 64 neighbouring cells of a structure.
/// Longer rows would fill stretches of the table.
#[derive(Clone, Copy)]
pub struct NearHasher {
    mixed: u64,
    // The shift and 1, once there is one.
    shift: u64,
}

impl NearHasher {
    /// The hasher that has read nothing.
    pub fn new() -> NearHasher
        ensures { result ≡ nothing_read }
    {
        NearHasher {
            mixed: 0x243f_6a88_85a3_08d3,
            shift: 0,
        }
    }
}

impl Hasher for NearHasher {
    ghost use Rattle.id_tag.specs.Near.{written, finished};

    ghost write = { written };

    ghost finish = { finished };

    #[inline(always)]
    fn finish(&self) -> u64 {
        folded(self.mixed).wrapping_add(self.shift)
    }

    #[inline(always)]
    fn write(&mut self, bytes: &[u8]) {
        if bytes.len() == 8 {
            let number = number(bytes);
            if self.shift == 0 {
                self.shift = 1 + shift_of(bytes[0]);
                self.mixed = mix(self.mixed, number / 256);
            } else {
                self.mixed = mix(self.mixed, number);
            }
        } else if bytes.len() == 4 {
            self.mixed = mix(self.mixed, half(bytes, 0));
        } else {
            self.mixed = mix_each(self.mixed, bytes);
        }
    }
}

impl BuildHasher for NearHasher {
    type Hasher = NearHasher;

    ghost build_hasher = { λ h. h };

    #[inline(always)]
    fn build_hasher(&self) -> NearHasher {
        *self
    }
}

/// By how much the lowest byte of a number shifts: by a step for each number of a row, and far for each row.
#[inline(always)]
fn shift_of(lowest: u8) -> u64
    ensures { result ≡ shift_of lowest }
{
    u64::from(lowest % 64) + u64::from(lowest / 64) * 0x9e37_79b1
}

/// The number of the four bytes from this one on, the lowest first.
#[inline(always)]
fn half(bytes: &[u8], at: usize) -> u64
    requires { at + 4 ≤ length bytes.now }
    ensures { result ≡ half bytes.now at }
{
    u64::from(u32::from_le_bytes([bytes[at], bytes[at + 1], bytes[at + 2], bytes[at + 3]]))
}

/// The number of eight bytes, the lowest first.
#[inline(always)]
fn number(bytes: &[u8]) -> u64
    requires { 8 ≤ length bytes.now }
    ensures { result ≡ number bytes.now }
{
    half(bytes, 0) | half(bytes, 4) << 32
}

/// What is mixed so far, with a number more. Takes no memory.
#[inline(always)]
pub fn mix(mixed: u64, number: u64) -> u64
    ensures { result ≡ mix mixed number }
{
    mixed
        .wrapping_add(number)
        .wrapping_mul(0x9e37_79b9_7f4a_7c15)
}

/// What is mixed so far, with each byte more.
fn mix_each(mixed: u64, bytes: &[u8]) -> u64
    ensures { result ≡ fold mix mixed bytes.now }
{
    bytes
        .iter()
        .fold(mixed, |mixed, byte| mix(mixed, u64::from(*byte)))
}

/// What is mixed, with its high bits brought to all places.
#[inline(always)]
fn folded(mixed: u64) -> u64
    ensures { result ≡ folded mixed }
{
    let product = u128::from(mixed) * 0x9e37_79b9_7f4a_7c15;
    (product & 0xffff_ffff_ffff_ffff) as u64 ^ (product >> 64) as u64
}
