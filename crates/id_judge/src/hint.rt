//! What a text says that it names: a quick reading, by which nothing is decided.

use crate::pool::name_by;

/// What the message names that a text says, in one number, as `name_of` has it. Takes no memory.
pub fn name_said(text: &[u8]) -> u64 {
    let is_token = text.starts_with(b"token");
    let last = last_numbers(text, is_token);
    if is_token {
        name_by(last)
    } else {
        let what = if text.starts_with(b"read") { 2 } else { 3 };
        name_by([last[1], last[2], last[3], last[4], what])
    }
}

/// The last five numbers of a line, or the first five.
fn last_numbers(text: &[u8], is_first: bool) -> [u64; 5] {
    let mut last = [0u64; 5];
    let mut many = 0u8;
    let mut inside = false;
    for byte in text {
        match digit(*byte) {
            Some(digit) => {
                if !inside {
                    last = [last[1], last[2], last[3], last[4], 0];
                    many = many.saturating_add(1);
                    inside = true;
                }
                last[4] = last[4].wrapping_mul(10).wrapping_add(digit);
            }
            None => {
                if *byte == b'\n' || (is_first && many == 5) {
                    break;
                }
                inside = false;
            }
        }
    }
    last
}

/// The number that a digit is.
fn digit(byte: u8) -> Option<u64> {
    if byte >= b'0' && byte <= b'9' {
        Some(u64::from(byte - b'0'))
    } else {
        None
    }
}
