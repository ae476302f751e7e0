//! What a trace tells of one name, and where in the text a statement stands.
ghost use Rattle.std.specs.Prelude.{◌≡◌, ℕ, [], None};
ghost use Rattle.std.specs.List.{find};
ghost use Rattle.std.specs.Option.{option_map};
ghost use Rattle.tj_base.specs.ForkOrder.{child};
ghost use Rattle.tj_body.specs.Names.{has, same};
ghost use Rattle.tj_syntax.specs.PlacesOf.{view, view_task};
ghost use Rattle.tj_trace.specs.Lookups as spec;
ghost use Rattle.std.specs.Prelude.{slice_get, List};

use crate::line::{Maker, TraceLine};
use tj_base::Name;
use tj_lex::Place;
use tj_mean::Ending;
use tj_syntax::{ScriptPlaces, TaskPlaces};

/// The line of the task with this name.
pub fn line_of<'t>(lines: &'t [TraceLine], name: &Name) -> Option<&'t TraceLine>
    // The answer is the first line of a task with this name, and none where there is none.
    ensures { option_map (λ line. line.now) result
        ≡ find (λ line. same line.line.name name.now) lines.now }
{
    lines.iter().find(|line| line.line.name == *name)
}

/// The line of the task that owned the cell with this name where it stopped.
pub fn owner_of<'t>(lines: &'t [TraceLine], name: &Name) -> Option<&'t TraceLine>
    // The answer is the first line of a task that owed the promise when it ended, or waits and
    // holds it or is it.
    ensures { option_map (λ line. line.now) result
        ≡ find (λ line. has name.now (spec.kept_by line)) lines.now }
{
    lines.iter().find(|line| keeps(line, name))
}

/// Whether the task owned the cell where it stopped.
fn keeps(line: &TraceLine, name: &Name) -> bool
    ensures { result ≡ has name.now (spec.kept_by line.now) }
{
    match line.line.ending {
        Ending::Waits(_) => *name == line.line.name || is_among(name, line.holds.items()),
        Ending::Done(_) | Ending::Failed(_) => is_among(name, line.line.owes.items()),
    }
}

/// Whether the name is one of these.
fn is_among(name: &Name, names: &[Name]) -> bool
    ensures { result ≡ has name.now names.now }
{
    names.iter().any(|other| *name == *other)
}

/// The statement that made the thing with this name.
pub fn maker_of(lines: &[TraceLine], name: &Name) -> Option<Maker>
    // Nobody made the root.
    ensures root { name.now ≡ [] → result ≡ None }
    // The answer is the statement that made the thing with this name: of the line of its maker, the
    // one with the number with which the name ends.
    ensures child { (maker : List ℕ) (k : ℕ) → name.now ≡ child maker k
        → result ≡ spec.made_by (find (λ line. same line.line.name maker) lines.now) k }
{
    match name.split_last() {
        Some((k, maker)) => made_in(lines, maker, k),
        None => None,
    }
}

/// The statement that made the k-th thing of the task with this name.
fn made_in(lines: &[TraceLine], maker: &Name, k: u32) -> Option<Maker>
    ensures { result
        ≡ spec.made_by (find (λ line. same line.line.name maker.now) lines.now) k }
{
    match line_of(lines, maker) {
        Some(line) => made_by(line, k),
        None => None,
    }
}

/// The statement that made the k-th thing of the task.
fn made_by(line: &TraceLine, k: u32) -> Option<Maker>
    ensures { result ≡ spec.maker_at line.now k }
{
    let before = k.checked_sub(1)?;
    line.makers.items().get(before as usize).copied()
}

/// Where the statement with this number begins, in the declaration with that number; the number
/// behind the last is that of the closing brace.
// A line has numbers and no positions: the meaning needs no text.
pub fn spot(places: &ScriptPlaces, decl: usize, at: usize) -> Option<Place>
    // The answer is where the statement with this number begins in that declaration; at the number
    // behind the last, where its closing brace stands; and none past that.
    ensures { result ≡ spec.spot_of (slice_get (view places.now) decl) at }
{
    let task = places.tasks.get(decl)?;
    spot_in(task, at)
}

/// The same of a declaration's parts.
fn spot_in(task: &TaskPlaces, at: usize) -> Option<Place>
    ensures { result ≡ slice_get (spec.spots (view_task task.now)) at }
{
    if let Some(statement) = task.statements.get(at) {
        return Some(statement.at);
    }
    if at == task.statements.len() {
        Some(task.brace)
    } else {
        None
    }
}

/// Where the ask of the statement with this number begins, in the declaration with that number, if
/// the statement has one.
// It stands beside `spot`, since a task can fail at a statement without an ask.
pub fn ask_spot(places: &ScriptPlaces, decl: usize, at: usize) -> Option<Place>
    // The answer is where the ask of the statement with this number begins in that declaration, and
    // none if the statement has none or there is no such statement.
    ensures { result ≡ spec.ask_spot_of (slice_get (view places.now) decl) at }
{
    let task = places.tasks.get(decl)?;
    ask_in(task, at)
}

/// The same of a declaration's parts.
fn ask_in(task: &TaskPlaces, at: usize) -> Option<Place>
    ensures { result ≡ spec.ask_in (slice_get (view_task task.now).statements at) }
{
    let statement = task.statements.get(at)?;
    statement.ask
}
