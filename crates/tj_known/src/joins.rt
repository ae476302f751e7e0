//! All joins of a meaning, each with how it stands.
ghost use Rattle.std.specs.Prelude.{◌≡◌, ◌++◌, length, IfOk};
ghost use Rattle.tj_mean.specs.ActLines.{AreActLines};
ghost use Rattle.tj_known.specs.KnownLines as spec;
ghost use Rattle.tj_known.specs.KnownLines.{AreTold, KnownAreAlong, joins_in};
ghost use Rattle.tj_known.specs.Inner.Learners.{AreDone, IsUnderWay};
ghost use Rattle.tj_known.specs.Inner.Marks.{marked_line, marked_lines};

use crate::known::{How, KnownLine, KnownList};
use crate::laws::known_is_along;
use crate::learner::Learner;
use crate::work::Monitor;
use std::alloc::Global;
use tj_base::{Items, Name, Oom, path_before};
use tj_mean::{Act, ActLine, ActLines};

/// A line for each join, in the order of tasks and acts.
// It asks of the lines what it needs, and not that `acts` gave them for some body.
pub fn known_joins(alloc: Global, lines: &ActLines) -> Result<KnownList, Oom>
    requires { AreActLines lines.now }

    // For each join of the lines there is a line, in the order of tasks and acts. It is `Known`
    // exactly where its task knew the joined one, and of the others `Along` exactly where its task
    // is before that one.
    ensures joins { IfOk result (AreTold lines.now (joins_in lines.now)) }

    // Each join that is told as `Known` has its task before the joined one in the fork order.
    ensures known { IfOk result KnownAreAlong }
{
    known_is_along();
    let mut monitor = Monitor::new(alloc, lines.items())?;
    monitor.work_off()?;
    told(alloc, lines.items(), monitor.learners.as_slice())
}

/// A line for each join of these tasks, whose acts are all worked off.
fn told(alloc: Global, lines: &[ActLine], learners: &[Learner]) -> Result<KnownList, Oom>
    requires lines { AreActLines lines.now }
    requires under_way { IsUnderWay lines.now learners.now }
    requires done { AreDone learners.now }
    ensures { IfOk result (AreTold lines.now (joins_in lines.now)) }
{
    let mut list = Items::of(Vec::new(alloc));
    for (index, line) in lines.iter().enumerate() {
        add_joins(alloc, line, learners[index].marks.as_slice(), &mut list)?;
    }
    Ok(list)
}

/// Adds a line for each join of a task, where the marks tell which of its acts are known joins.
fn add_joins(alloc: Global, line: &ActLine, marks: &[bool], list: &mut KnownList) -> Result<(), Oom>
    requires { length line.now.acts ≡ length marks.now }
    ensures { IfOk result (λ _.
        list.new ≡ list.old ++ marked_lines line.now.name line.now.acts marks.now) }
{
    for (at, act) in line.acts.items().iter().enumerate() {
        add_join(alloc, &line.name, act, marks[at], list)?;
    }
    Ok(())
}

/// Adds a line for the act of a task, if it is a join.
fn add_join(
    alloc: Global,
    by: &Name,
    act: &Act,
    mark: bool,
    list: &mut KnownList,
) -> Result<(), Oom>
    ensures { IfOk result (λ _. list.new ≡ list.old ++ marked_line by.now act.now mark) }
{
    if let Act::Join(joined, _) = act {
        list.push(KnownLine {
            by: by.copy(alloc)?,
            of: joined.copy(alloc)?,
            how: how_of(mark, by, joined),
        })?;
    }
    Ok(())
}

/// How a join stands of which this is said.
fn how_of(known: bool, by: &Name, of: &Name) -> How
    ensures { result ≡ spec.how_of known by.now of.now }
{
    if known {
        How::Known
    } else if path_before(by, of) {
        How::Along
    } else {
        How::Against
    }
}
