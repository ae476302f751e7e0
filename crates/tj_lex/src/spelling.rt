//! Keywords and marks by their bytes.
ghost use Rattle.std.specs.Prelude.{◌≡◌, ◌≢◌, [], ◌∷◌, IfSome, IfNone};
ghost use Rattle.tj_lex.specs.declared.token.Key.{Key};
ghost use Rattle.tj_lex.specs.declared.token.Mark.{Mark};
ghost use Rattle.tj_lex.specs.Spelling.{key_text, mark_text};

use crate::token::{Key, Mark};

/// The keyword of these bytes.
pub(crate) fn keyword(bytes: &[u8]) -> Option<Key>
    ensures found { IfSome result (λ key. key_text key ≡ bytes.now) }
    ensures none { IfNone result ((key : Key) → key_text key ≢ bytes.now) }
{
    if bytes.len() < 2 || bytes.len() > 6 {
        return None;
    }
    match bytes {
        b"task" => Some(Key::Task),
        b"let" => Some(Key::Let),
        b"if" => Some(Key::If),
        b"else" => Some(Key::Else),
        b"while" => Some(Key::While),
        b"print" => Some(Key::Print),
        b"set" => Some(Key::Set),
        b"return" => Some(Key::Return),
        b"new" => Some(Key::New),
        b"fork" => Some(Key::Fork),
        b"own" => Some(Key::Own),
        b"get" => Some(Key::Get),
        b"join" => Some(Key::Join),
        b"me" => Some(Key::Me),
        b"or" => Some(Key::Or),
        _ => None,
    }
}

/// The mark of this byte alone.
pub(crate) fn single_mark(byte: u8) -> Option<Mark>
    ensures found { IfSome result (λ mark. mark_text mark ≡ byte ∷ []) }
    ensures none { IfNone result ((mark : Mark) → mark_text mark ≢ byte ∷ []) }
{
    match byte {
        b'(' => Some(Mark::ParenOpen),
        b')' => Some(Mark::ParenClose),
        b'{' => Some(Mark::BraceOpen),
        b'}' => Some(Mark::BraceClose),
        b',' => Some(Mark::Comma),
        b';' => Some(Mark::Semi),
        b'=' => Some(Mark::Assign),
        b'<' => Some(Mark::Lt),
        b'>' => Some(Mark::Gt),
        b'+' => Some(Mark::Plus),
        b'-' => Some(Mark::Minus),
        b'*' => Some(Mark::Times),
        b'/' => Some(Mark::Over),
        b'%' => Some(Mark::Rest),
        _ => None,
    }
}

/// The mark of this byte and `=`.
pub(crate) fn double_mark(byte: u8) -> Option<Mark>
    ensures found { IfSome result (λ mark. mark_text mark ≡ byte ∷ 61 ∷ []) }
    ensures none { IfNone result ((mark : Mark) → mark_text mark ≢ byte ∷ 61 ∷ []) }
{
    match byte {
        b'=' => Some(Mark::Eq),
        b'!' => Some(Mark::Ne),
        b'<' => Some(Mark::Le),
        b'>' => Some(Mark::Ge),
        _ => None,
    }
}
