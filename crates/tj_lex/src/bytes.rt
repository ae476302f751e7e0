//! What a byte can be part of, and runs of such bytes.
ghost use Rattle.std.specs.Prelude.{◌≡◌, ◌≤◌, length};
ghost use Rattle.std.specs.List.{prefix_len};
ghost use Rattle.std.specs.Char.{is_ascii_digit};
ghost use Rattle.tj_lex.specs.Bytes as spec;

/// The most bytes of a text that is read.
pub const MAX_TEXT: usize = 1_048_576;

/// The most bytes of a name.
pub(crate) const MAX_NAME: usize = 64;

pub(crate) fn is_name_start(byte: u8) -> bool
    ensures { result ≡ spec.is_name_start byte }
{
    byte.is_ascii_alphabetic() || byte == b'_'
}

fn is_name_byte(byte: u8) -> bool
    ensures { result ≡ spec.is_name_byte byte }
{
    is_name_start(byte) || byte.is_ascii_digit()
}

/// How many bytes at the front can stand in a name.
pub(crate) fn name_len(text: &[u8]) -> usize
    ensures len { result ≡ prefix_len spec.is_name_byte text.now }
    ensures within { result ≤ length text.now }
{
    text.iter().take_while(|byte| is_name_byte(**byte)).count()
}

/// How many bytes at the front are digits.
pub(crate) fn digits_len(text: &[u8]) -> usize
    ensures len { result ≡ prefix_len is_ascii_digit text.now }
    ensures within { result ≤ length text.now }
{
    text.iter().take_while(|byte| byte.is_ascii_digit()).count()
}

/// How many bytes stand before the first line feed, or all where there is none.
pub(crate) fn line_len(text: &[u8]) -> usize
    ensures len { result ≡ prefix_len spec.stays_on_line text.now }
    ensures within { result ≤ length text.now }
{
    text.iter().take_while(|byte| **byte != b'\n').count()
}
