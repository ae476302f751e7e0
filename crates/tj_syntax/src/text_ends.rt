//! The position behind the bytes that a script or a journal may have.
ghost use Rattle.std.specs.Prelude.{◌≡◌, ◌≤◌, ◌==◌, length, count_by};
ghost use Rattle.std.specs.List.{suffix_len};
ghost use Rattle.tj_lex.specs.Bytes.{line_feed, stays_on_line};
ghost use Rattle.tj_lex.specs.Positions.{position_after};
ghost use Rattle.tj_syntax.specs.ScriptTexts.{most_bytes};

use tj_lex::Place;

/// The position just behind these bytes, where a text that is too long has its fault.
pub fn position_behind(bytes: &[u8]) -> Place
    requires { length bytes.now ≤ most_bytes }
    // It is the position just behind the bytes.
    ensures { result ≡ position_after bytes.now }
{
    Place {
        line: line_feeds(bytes) as u32 + 1,
        column: last_line_len(bytes) as u32 + 1,
    }
}

fn line_feeds(bytes: &[u8]) -> usize
    ensures count { result ≡ count_by (λ b. b == line_feed) bytes.now }
    ensures bound { result ≤ length bytes.now }
{
    bytes.iter().filter(|byte| **byte == b'\n').count()
}

fn last_line_len(bytes: &[u8]) -> usize
    ensures count { result ≡ suffix_len stays_on_line bytes.now }
    ensures bound { result ≤ length bytes.now }
{
    bytes
        .iter()
        .rev()
        .take_while(|byte| **byte != b'\n')
        .count()
}
