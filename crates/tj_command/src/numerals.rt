//! The numbers of a command line: 1 to 10 digits, within limits.
ghost use Rattle.std.specs.Prelude.{IsTrue, ◌↔◌};
ghost use Rattle.tj_command.specs.Numerals.{IsNumberUpTo, IsShortNumeral};

// The most digits of a number.
const MOST_DIGITS: usize = 10;

/// Whether the bytes are 1 to 10 digits.
pub fn is_short_numeral(bytes: &[u8]) -> bool
    // The bytes are 1 to 10 digits.
    ensures { IsTrue result ↔ IsShortNumeral bytes.now }
{
    !bytes.is_empty()
        && bytes.len() <= MOST_DIGITS
        && bytes.iter().all(|byte| byte.is_ascii_digit())
}

/// The number of 1 to 10 digits, or None where it isn't from 1 to the greatest.
pub fn number_up_to(most: u32, digits: &str) -> Option<u32>
    // Of 1 to 10 digits the number is given exactly where it is from 1 to the greatest.
    ensures { IsShortNumeral digits.now → IsNumberUpTo most digits.now result }
{
    let number = digits.parse::<u32>().ok()?;
    if 1 <= number && number <= most {
        Some(number)
    } else {
        None
    }
}
