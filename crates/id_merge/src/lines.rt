//! The rank of a line.

ghost use Rattle.std.specs.Prelude.{◌≡◌, ◌≤◌, ◌<◌, ◌^◌, drop, length};
ghost use Rattle.id_merge.specs.Lines.{behind_digits, is_digit, line_length, number_from, opens_number, rank};
ghost use Rattle.id_merge.specs.Lines.{rank_behind, rank_of_line};

/// More bytes than the line of any event has.
pub const MAX_LINE: usize = 4096;

/// The largest stamp.
const MOST_STAMP: u128 = 18446744073709551615;

/// The largest number of an element.
const MOST_ELEMENT: u128 = 4294967295;

/// The rank of a line that breaks off.
const TORN: u128 = 79228162514264337593543950337;

/// The rank where there is no line.
pub const NONE: u128 = 79228162514264337593543950338;

/// Whether a byte is a digit.
fn is_digit(byte: u8) -> bool
    ensures { result ≡ is_digit byte }
{
    b'0' <= byte && byte <= b'9'
}

/// Whether a digit is at the front.
fn opens_number(bytes: &[u8]) -> bool
    ensures { result ≡ opens_number bytes.now }
{
    match bytes.first() {
        Some(first) => is_digit(*first),
        None => false,
    }
}

/// The number that the digits at the front give, but no more than the most.
fn number(most: u128, bytes: &[u8]) -> u128
    requires { most < 2 ^ 64 }
    ensures value { result ≡ number_from most 0 bytes.now }
    ensures within { result ≤ most }
{
    let mut n = 0;
    let mut rest = bytes;
    while let Some((first, tail)) = rest.split_first() {
        if !is_digit(*first) {
            return n;
        }
        n = most.min(n * 10 + (*first - b'0') as u128);
        rest = tail;
    }
    n
}

/// What stands behind the digits at the front.
fn behind_digits(bytes: &[u8]) -> &[u8]
    ensures { result.now ≡ behind_digits bytes.now }
{
    let mut rest = bytes;
    while let Some((first, tail)) = rest.split_first() {
        if !is_digit(*first) {
            return rest;
        }
        rest = tail;
    }
    rest
}

/// The rank of a line that begins with this stamp, behind which the bytes stand.
fn rank_behind(stamp: u128, bytes: &[u8]) -> u128
    requires { stamp < 2 ^ 64 }
    ensures { result ≡ rank_behind stamp bytes.now }
{
    match bytes.split_first() {
        Some((first, rest)) if *first == b' ' && opens_number(rest) => {
            stamp * 4294967296 + number(MOST_ELEMENT, rest) + 1
        }
        _ => 0,
    }
}

/// The rank of a whole line.
fn rank_of_line(text: &[u8]) -> u128
    ensures { result ≡ rank_of_line text.now }
{
    if opens_number(text) {
        rank_behind(number(MOST_STAMP, text), behind_digits(text))
    } else {
        0
    }
}

/// How many bytes the first line of a text has before its line feed.
pub fn line_length(text: &[u8]) -> usize
    ensures value { result ≡ line_length text.now }
    ensures within { result ≤ length text.now }
{
    text.iter().take_while(|b| **b != b'\n').count()
}

/// The rank of the first line of a text.
pub fn rank(text: &[u8]) -> u128
    ensures { result ≡ rank text.now }
{
    let length = line_length(text);
    if length >= MAX_LINE {
        0
    } else if length < text.len() {
        rank_of_line(text)
    } else if text.is_empty() {
        NONE
    } else {
        TORN
    }
}
