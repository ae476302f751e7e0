//! Numbers in texts.
ghost use Rattle.std.specs.Prelude.{◌≡◌, ◌++◌, IfOk, OnErr, decimal};
ghost use Rattle.std.specs.Fmt.{signed_decimal};
ghost use Rattle.tj_base.specs.Texts.{counted};

use crate::memory::Oom;
use itoa::{Buffer, Integer};

/// Adds a number in decimal.
pub fn add_number(text: &mut Vec<u8>, number: u128) -> Result<(), Oom>
    // After `Ok` the text has grown by exactly the number in decimal.
    ensures ok { IfOk result (λ _. text.new.items ≡ text.old.items ++ decimal number) }
    // After an error the text is as before.
    ensures err { OnErr result (text.new.items ≡ text.old.items) }
{
    add_integer(text, number)
}

/// Adds a number in decimal, with its sign where it is less than 0.
pub fn add_signed(text: &mut Vec<u8>, number: i64) -> Result<(), Oom>
    // After `Ok` the text has grown by exactly the number in decimal, behind a `-` where it is less
    // than 0.
    ensures ok { IfOk result (λ _. text.new.items ≡ text.old.items ++ signed_decimal number) }
    // After an error the text is as before.
    ensures err { OnErr result (text.new.items ≡ text.old.items) }
{
    add_integer(text, number)
}

/// Adds an integer in decimal, whatever its type.
fn add_integer<I: Integer>(text: &mut Vec<u8>, number: I) -> Result<(), Oom>
    ensures ok { IfOk result (λ _. text.new.items ≡ text.old.items ++ I.text number) }
    ensures err { OnErr result (text.new.items ≡ text.old.items) }
{
    let mut buffer = Buffer::new();
    text.extend_from_slice(buffer.format(number).as_bytes())?;
    Ok(())
}

/// Adds a word and a number in decimal.
pub fn add_count(text: &mut Vec<u8>, word: &[u8], number: u128) -> Result<(), Oom>
    // After `Ok` the text has grown by exactly the word and the number in decimal.
    ensures { IfOk result (λ _. text.new.items ≡ text.old.items ++ counted word.now number) }
{
    text.extend_from_slice(word)?;
    add_number(text, number)
}
