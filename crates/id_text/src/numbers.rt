//! The number that a run of digits spells.

ghost use Rattle.std.specs.Prelude.{◌<◌, ◌^◌, SomeIff, pos};
ghost use Rattle.std.specs.List.{AllPass};
ghost use Rattle.std.specs.Char.{is_ascii_digit};
ghost use Rattle.id_text.specs.Bytes.{number_of};

/// Above the largest number.
const LIMIT: u64 = 0x8000_0000_0000_0000;

/// The number that the digits spell, if it is at most 9223372036854775807.
pub fn number_of(digits: &[u8]) -> Option<i64>
    requires { AllPass is_ascii_digit digits.now }
    ensures { SomeIff result (number_of digits.now < 2 ^ 63) (pos (number_of digits.now)) }
{
    let mut value: u64 = 0;
    for digit in digits {
        value = value
            .saturating_mul(10)
            .saturating_add(u64::from(*digit - b'0'));
    }
    if value < LIMIT {
        Some(value as i64)
    } else {
        None
    }
}
