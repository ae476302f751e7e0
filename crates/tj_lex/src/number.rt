//! The value of decimal digits.
ghost use Rattle.std.specs.Prelude.{◌≡◌, ◌≤◌, ◌<◌, pos, IfSome, IfNone, true, ◌*◌, ◌+◌, ◌-◌};
ghost use Rattle.std.specs.List.{AllPass};
ghost use Rattle.std.specs.Char.{is_ascii_digit};
ghost use Rattle.tj_lex.specs.Spelling.{decimal};
ghost use Rattle.tj_lex.specs.Tokens.{greatest_number};

/// The greatest number.
const GREATEST: u64 = 9_223_372_036_854_775_807;

/// The number of these digits, unless it is greater than the greatest.
pub(crate) fn number(digits: &[u8]) -> Option<i64>
    requires { AllPass is_ascii_digit digits.now }
    ensures fits { IfSome result (λ n. (n ≡ pos (decimal digits.now))
        × (decimal digits.now ≤ greatest_number)) }
    ensures too_great { IfNone result (greatest_number < decimal digits.now) }
{
    let mut value: u64 = 0;
    for digit in digits {
        value = with_digit(value, *digit)?;
    }
    Some(value as i64)
}

/// The number with one more digit, unless it is greater than the greatest.
fn with_digit(value: u64, digit: u8) -> Option<u64>
    requires { is_ascii_digit digit ≡ true }
    ensures fits { IfSome result (λ n. (n ≡ 10 * value + (digit - 48)) × (n ≤ greatest_number)) }
    ensures too_great { IfNone result (greatest_number < 10 * value + (digit - 48)) }
{
    let more = value.checked_mul(10)?.checked_add(u64::from(digit - b'0'))?;
    if more <= GREATEST { Some(more) } else { None }
}
