//! The text of what is told of joins: a line for each, and a line of counts.
ghost use Rattle.std.specs.List.{flat_map};
ghost use Rattle.std.specs.Prelude.{[], ◌≡◌, ◌++◌, IfOk};
ghost use Rattle.tj_base.specs.Texts.{name_text};
ghost use Rattle.tj_known.specs.KnownTexts as spec;

use crate::known::{How, KnownLine, KnownList};
use std::alloc::Global;
use tj_base::{Name, Oom, add_count};

/// How many joins there are of each kind.
#[derive(Clone, Copy)]
struct Counts {
    known: usize,
    along: usize,
    against: usize,
}

/// A line for each join, and how many there are of each kind.
// The text of a name goes on from that of the name printed last, where that is its maker.
pub fn known_text(alloc: Global, list: &KnownList) -> Result<Vec<u8>, Oom>
    // The text is a line for each join, and a line with how many there are, how many are known,
    // along and against.
    ensures { IfOk result (λ text. text.items ≡ spec.known_text list.now) }
{
    let mut text = Vec::new(alloc);
    add_lines(alloc, &Name::root(), list.items(), &mut text)?;
    add_counts(list.items(), &mut text)?;
    Ok(text)
}

/// Adds the line of each join. It is told of the root's name, from which it goes on.
fn add_lines<'n>(
    alloc: Global,
    root: &'n Name,
    lines: &'n [KnownLine],
    text: &mut Vec<u8>,
) -> Result<(), Oom>
    requires { root.now ≡ [] }
    ensures { IfOk result (λ _. text.new.items ≡ text.old.items ++ flat_map spec.line_text lines.now) }
{
    let mut name = Vec::from_slice(alloc, b"0")?;
    let mut last = root;
    for line in lines {
        go_to(alloc, last, &line.by, &mut name)?;
        last = &line.by;
        add_line(alloc, line, name.as_slice(), text)?;
    }
    Ok(())
}

/// Makes the printed name `text` of the first name that of the second.
fn go_to(alloc: Global, from: &Name, to: &Name, text: &mut Vec<u8>) -> Result<(), Oom>
    requires { text.old.items ≡ name_text from.now }
    ensures { IfOk result (λ _. text.new.items ≡ name_text to.now) }
{
    if *from == *to {
        return Ok(());
    }
    if let Some((number, maker)) = to.split_last() {
        if *maker == *from {
            return add_count(text, b".", u128::from(number));
        }
    }
    text.clear();
    to.text_into(alloc, text)
}

/// Adds the text of a name, where this one is printed.
fn add_name(
    alloc: Global,
    last: &Name,
    printed: &[u8],
    name: &Name,
    text: &mut Vec<u8>,
) -> Result<(), Oom>
    requires { printed.now ≡ name_text last.now }
    ensures { IfOk result (λ _. text.new.items ≡ text.old.items ++ name_text name.now) }
{
    if let Some((number, maker)) = name.split_last() {
        if *maker == *last {
            text.extend_from_slice(printed)?;
            return add_count(text, b".", u128::from(number));
        }
    }
    name.text_into(alloc, text)
}

/// Adds the line of a join, whose task's name is printed.
fn add_line(alloc: Global, line: &KnownLine, by: &[u8], text: &mut Vec<u8>) -> Result<(), Oom>
    requires { by.now ≡ name_text line.now.by }
    ensures { IfOk result (λ _. text.new.items ≡ text.old.items ++ spec.line_text line.now) }
{
    text.extend_from_slice(by)?;
    text.extend_from_slice(b" joins ")?;
    add_name(alloc, &line.by, by, &line.of, text)?;
    text.push(b' ')?;
    text.extend_from_slice(word_of(line.how))?;
    text.push(b'\n')?;
    Ok(())
}

/// How a join stands, in a word.
fn word_of(how: How) -> &'static [u8]
    ensures { result.now ≡ spec.how_text how }
{
    match how {
        How::Known => b"known",
        How::Along => b"along",
        How::Against => b"against",
    }
}

/// Adds the line of counts.
fn add_counts(lines: &[KnownLine], text: &mut Vec<u8>) -> Result<(), Oom>
    ensures { IfOk result (λ _. text.new.items ≡ text.old.items ++ spec.count_line lines.now) }
{
    let counts = count(lines);
    add_count(text, b"joins ", lines.len() as u128)?;
    add_count(text, b" known ", counts.known as u128)?;
    add_count(text, b" along ", counts.along as u128)?;
    add_count(text, b" against ", counts.against as u128)?;
    text.push(b'\n')?;
    Ok(())
}

/// Counts the joins of each kind.
fn count(lines: &[KnownLine]) -> Counts
    ensures known { result.known ≡ spec.count_with spec.is_known lines.now }
    ensures along { result.along ≡ spec.count_with spec.is_along lines.now }
    ensures against { result.against ≡ spec.count_with spec.is_against lines.now }
{
    let mut known = 0;
    let mut along = 0;
    let mut against = 0;
    for line in lines {
        match line.how {
            How::Known => known += 1,
            How::Along => along += 1,
            How::Against => against += 1,
        }
    }
    Counts {
        known,
        along,
        against,
    }
}
