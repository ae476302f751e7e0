//! The printed name of a task, made from that of the task in the line before: the text of what both
//! names begin with stays.
ghost use Rattle.std.specs.Prelude.{[], ◌∷◌, ◌≡◌, ◌++◌, List, ℕ, IfOk};
ghost use Rattle.tj_base.specs.Texts.{name_text, parts_text};

use itoa::Buffer;
use std::alloc::Global;
use tj_base::{Name, Oom};

/// Makes the printed name `text` of the first name that of the second.
// In a report the maker of a task is the task in the line before, or above that.
pub fn go_to(alloc: Global, from: &Name, to: &Name, text: &mut Vec<u8>) -> Result<(), Oom>
    requires { text.old.items ≡ name_text from.now }
    ensures { IfOk result (λ _. text.new.items ≡ name_text to.now) }
{
    let Some((number, maker)) = to.split_last() else {
        text.clear();
        return to.text_into(alloc, text);
    };
    let above = cut_back(from, maker.depth(), text);
    if *above != *maker {
        text.clear();
        maker.text_into(alloc, text)?;
    }
    add_parts(&[number], text)
}

/// Leaves of the printed name that of its maker, or of a maker above, with at most so many numbers.
fn cut_back<'n>(name: &'n Name, depth: usize, text: &mut Vec<u8>) -> &'n Name
    requires { text.old.items ≡ name_text name.now }
    ensures { text.new.items ≡ name_text result.now }
{
    let mut at = name;
    while depth < at.depth() {
        let Some((number, maker)) = at.split_last() else {
            return at;
        };
        cut_part(number, text);
        at = maker;
    }
    at
}

/// Cuts off the last part of a printed name.
pub fn cut_part(number: u32, text: &mut Vec<u8>)
    ensures { (name : List ℕ) → text.old.items ≡ name_text (name ++ number ∷ [])
        → text.new.items ≡ name_text name }
{
    let mut buffer = Buffer::new();
    let digits = buffer.format(number).as_bytes().len();
    let left = text.len().saturating_sub(digits).saturating_sub(1);
    text.truncate(left);
}

/// Adds further numbers of the name.
pub fn add_parts(parts: &[u32], text: &mut Vec<u8>) -> Result<(), Oom>
    ensures { IfOk result (λ _. text.new.items ≡ text.old.items ++ parts_text parts.now) }
{
    let mut buffer = Buffer::new();
    for number in parts {
        text.push(b'.')?;
        text.extend_from_slice(buffer.format(*number).as_bytes())?;
    }
    Ok(())
}
