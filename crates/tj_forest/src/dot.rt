//! A picture of a run in the language of Graphviz.
ghost use Rattle.std.specs.Prelude.{◌≡◌, IfOk};
ghost use Rattle.std.specs.List.{flat_map};
ghost use Rattle.std.specs.Option.{option_map};
ghost use Rattle.tj_mean.specs.Outcomes as outcomes;
ghost use Rattle.tj_forest.specs.DotTexts as spec;
ghost use Rattle.tj_findings.specs.Scenes.{view};
ghost use Rattle.tj_findings.specs.Echoes.{back, most_doublings};
ghost use Rattle.tj_forest.specs.Inner.Jumps.{AreJumps};
ghost use Rattle.tj_forest.specs.Inner.Numbers.{IsSearchable, HasMembers};

use crate::chains::{Way, jumps_of};
use crate::echoes::{echoed_by, origin};
use crate::lookups::{Lookups, Members};
use crate::members::is_member;
use crate::searches::line_of;
use std::alloc::Global;
use tj_base::{Name, Oom};
use tj_command::count_text;
use tj_faults::joined;
use tj_findings::{Scene, cause_text, name_of, named, spot_text};
use tj_mean::{Ending, TaskLine};
use tj_trace::TraceLine;

/// The most tasks of which each is in the picture.
// Above this the tasks that ended well are left out; of a smaller run the fork tree explains it.
const MOST_DRAWN: usize = 200;

/// Whether the task is in the picture.
fn is_drawn(lines: &[TraceLine], line: &TraceLine) -> bool
    ensures { result ≡ spec.is_drawn lines.now line.now }
{
    lines.len() <= MOST_DRAWN || is_troubled(&line.line)
}

/// Whether the task failed, owes or waits.
fn is_troubled(line: &TaskLine) -> bool
    ensures { result ≡ outcomes.is_troubled line.now }
{
    match line.ending {
        Ending::Done(_) => !line.owes.items().is_empty(),
        Ending::Failed(_) | Ending::Waits(_) => true,
    }
}

/// The node of a cell.
fn node(alloc: Global, name: &Name) -> Result<Vec<u8>, Oom>
    ensures { IfOk result (λ text. text.items ≡ spec.node name.now) }
{
    let mut text = named(alloc, b"\"", name)?;
    text.push(b'"')?;
    Ok(text)
}

/// An edge between two cells.
fn edge(alloc: Global, from: &Name, to: &Name, style: &[u8]) -> Result<Vec<u8>, Oom>
    ensures { IfOk result (λ text. text.items ≡ spec.edge from.now to.now style.now) }
{
    let from = node(alloc, from)?;
    let to = node(alloc, to)?;
    joined(
        alloc,
        &[b"  ", from.as_slice(), b" -> ", to.as_slice(), style],
    )
}

/// How the node of a task is drawn that stopped so.
fn fill(ending: &Ending) -> &'static [u8]
    ensures { result.now ≡ spec.fill ending.now }
{
    match ending {
        Ending::Failed(_) => b"\", style=filled, fillcolor=salmon];\n",
        Ending::Done(_) | Ending::Waits(_) => b"\"];\n",
    }
}

/// Why a task failed that stopped so, as a line of its node.
fn cause_line(alloc: Global, ending: &Ending) -> Result<Vec<u8>, Oom>
    ensures { IfOk result (λ text. text.items ≡ spec.cause_line ending.now) }
{
    match ending {
        Ending::Failed(cause) => {
            let cause = cause_text(alloc, cause)?;
            joined(alloc, &[b"\\n", cause.as_slice()])
        }
        Ending::Done(_) | Ending::Waits(_) => Ok(Vec::new(alloc)),
    }
}

/// The lines of the node of a task below its name.
fn task_lines(scene: &Scene, line: &TraceLine) -> Result<Vec<u8>, Oom>
    ensures { IfOk result (λ text. text.items ≡ spec.task_lines (view scene.now) line.now) }
{
    let stop = spot_text(scene, line.decl, line.at)?;
    let cause = cause_line(scene.alloc, &line.line.ending)?;
    let decl = name_of(scene.script, line.decl);
    joined(
        scene.alloc,
        &[b"\\n", decl, b"\\n", stop.as_slice(), cause.as_slice()],
    )
}

/// The node of a task.
fn task_node(scene: &Scene, line: &TraceLine) -> Result<Vec<u8>, Oom>
    ensures { IfOk result (λ text. text.items ≡ spec.task_node (view scene.now) line.now) }
{
    let node = node(scene.alloc, &line.line.name)?;
    let label = named(scene.alloc, b" [label=\"", &line.line.name)?;
    let lines = task_lines(scene, line)?;
    joined(
        scene.alloc,
        &[
            b"  ",
            node.as_slice(),
            label.as_slice(),
            lines.as_slice(),
            fill(&line.line.ending),
        ],
    )
}

/// The line, if its task is in the picture.
fn drawn_only<'t>(lines: &[TraceLine], line: Option<&'t TraceLine>) -> Option<&'t TraceLine>
    ensures { option_map (λ line. line.now) result
        ≡ spec.drawn_only lines.now (option_map (λ line. line.now) line.entry) }
{
    let line = line?;
    if is_drawn(lines, line) {
        Some(line)
    } else {
        None
    }
}

/// The line of the task that forked the one with this name, if it is in the picture.
fn forker<'t>(lookups: &Lookups<'t>, name: &Name) -> Option<&'t TraceLine>
    requires lookups { IsSearchable lookups.now }
    ensures { option_map (λ line. line.now) result
        ≡ spec.forker lookups.now.lines.now name.now }
{
    let (_, maker) = name.split_last()?;
    drawn_only(lookups.lines, line_of(lookups, maker))
}

/// The edge from the task that forked another.
fn fork_edge(alloc: Global, name: &Name, forker: Option<&TraceLine>) -> Result<Vec<u8>, Oom>
    ensures { IfOk result (λ text. text.items
        ≡ spec.fork_edge name.now (option_map (λ line. line.now) forker.entry)) }
{
    match forker {
        Some(line) => edge(alloc, &line.line.name, name, b";\n"),
        None => Ok(Vec::new(alloc)),
    }
}

/// How a wait is drawn, in a cycle or not.
fn wait_style(in_cycle: bool) -> &'static [u8]
    ensures { result.now ≡ spec.wait_style in_cycle }
{
    if in_cycle {
        b" [color=red, penwidth=3];\n"
    } else {
        b" [style=dashed];\n"
    }
}

/// The edge of a task's wait, where it waits.
fn wait_edge(alloc: Global, members: &Members, name: &Name, ending: &Ending) -> Result<Vec<u8>, Oom>
    requires members { HasMembers members.now }
    ensures { IfOk result (λ text.
        text.items ≡ spec.wait_edge members.now.cycles.now name.now ending.now) }
{
    match ending {
        Ending::Waits(cell) => edge(alloc, name, cell, wait_style(is_member(members, name))),
        Ending::Done(_) | Ending::Failed(_) => Ok(Vec::new(alloc)),
    }
}

/// The edge from a task to the one from whose end its failure came.
fn origin_edge(alloc: Global, name: &Name, origin: Option<&TraceLine>) -> Result<Vec<u8>, Oom>
    ensures { IfOk result (λ text. text.items
        ≡ spec.origin_edge name.now (option_map (λ line. line.now) origin.entry)) }
{
    match origin {
        Some(line) => edge(
            alloc,
            name,
            &line.line.name,
            b" [style=dotted, color=salmon];\n",
        ),
        None => Ok(Vec::new(alloc)),
    }
}

/// The same where the task failed for this cell, which is broken.
fn origin_edge_of(
    alloc: Global,
    lookups: &Lookups,
    jumps: &[usize],
    name: &Name,
    cell: Option<&Name>,
) -> Result<Vec<u8>, Oom>
    requires lookups { IsSearchable lookups.now }
    requires jumps { AreJumps lookups.now.lines.now (back lookups.now.lines.now) most_doublings
        jumps.now }
    ensures { IfOk result (λ text. text.items ≡ spec.origin_edge_of lookups.now.lines.now name.now
        (option_map (λ cell. cell.now) cell.entry)) }
{
    match cell {
        Some(cell) => origin_edge(alloc, name, origin(lookups, jumps, cell)),
        None => Ok(Vec::new(alloc)),
    }
}

/// How a promise is drawn that the task owned which stopped so.
fn promise_style(ending: &Ending) -> &'static [u8]
    ensures { result.now ≡ spec.promise_style ending.now }
{
    match ending {
        Ending::Waits(_) => b" [shape=ellipse];\n",
        Ending::Done(_) | Ending::Failed(_) => {
            b" [shape=ellipse, style=filled, fillcolor=khaki];\n"
        }
    }
}

/// A promise that was never set, and the edge to the task that owned it.
fn promise_node(alloc: Global, style: &[u8], owner: &Name, promise: &Name) -> Result<Vec<u8>, Oom>
    ensures { IfOk result (λ text.
        text.items ≡ spec.promise_node style.now owner.now promise.now) }
{
    let node = node(alloc, promise)?;
    let edge = edge(alloc, promise, owner, b" [style=dotted];\n")?;
    joined(alloc, &[b"  ", node.as_slice(), style, edge.as_slice()])
}

/// The promises that a task owned where it stopped.
fn promises(line: &TraceLine) -> &[Name]
    ensures { result.now ≡ spec.promises_with line.now.line.ending line.now }
{
    match line.line.ending {
        Ending::Waits(_) => line.holds.items(),
        Ending::Done(_) | Ending::Failed(_) => line.line.owes.items(),
    }
}

/// Each of these promises.
fn promise_nodes(alloc: Global, style: &[u8], owner: &Name, names: &[Name]) -> Result<Vec<u8>, Oom>
    ensures { IfOk result (λ text.
        text.items ≡ flat_map (spec.promise_node style.now owner.now) names.now) }
{
    let mut text = Vec::new(alloc);
    for name in names {
        let added = promise_node(alloc, style, owner, name)?;
        text.extend_from_slice(added.as_slice())?;
    }
    Ok(text)
}

/// What is drawn of a task.
fn drawn(
    scene: &Scene,
    lookups: &Lookups,
    members: &Members,
    jumps: &[usize],
    line: &TraceLine,
) -> Result<Vec<u8>, Oom>
    requires lookups { IsSearchable lookups.now }
    requires members { HasMembers members.now }
    requires jumps { AreJumps lookups.now.lines.now (back lookups.now.lines.now) most_doublings
        jumps.now }
    ensures { IfOk result (λ text.
        text.items ≡ spec.drawn (view scene.now) lookups.now.lines.now members.now.cycles.now
        line.now) }
{
    let name = &line.line.name;
    let fork = fork_edge(scene.alloc, name, forker(lookups, name))?;
    let wait = wait_edge(scene.alloc, members, name, &line.line.ending)?;
    let echoed = echoed_by(&line.line.ending);
    let origin = origin_edge_of(scene.alloc, lookups, jumps, name, echoed)?;
    let style = promise_style(&line.line.ending);
    let promises = promise_nodes(scene.alloc, style, name, promises(line))?;
    let node = task_node(scene, line)?;
    joined(
        scene.alloc,
        &[
            node.as_slice(),
            fork.as_slice(),
            wait.as_slice(),
            origin.as_slice(),
            promises.as_slice(),
        ],
    )
}

/// The same where the task is in the picture.
fn drawing(
    scene: &Scene,
    lookups: &Lookups,
    members: &Members,
    jumps: &[usize],
    line: &TraceLine,
) -> Result<Vec<u8>, Oom>
    requires lookups { IsSearchable lookups.now }
    requires members { HasMembers members.now }
    requires jumps { AreJumps lookups.now.lines.now (back lookups.now.lines.now) most_doublings
        jumps.now }
    ensures { IfOk result (λ text.
        text.items ≡ spec.drawing (view scene.now) lookups.now.lines.now members.now.cycles.now
        line.now) }
{
    if is_drawn(lookups.lines, line) {
        drawn(scene, lookups, members, jumps, line)
    } else {
        Ok(Vec::new(scene.alloc))
    }
}

/// What is drawn of each task.
fn drawings(
    scene: &Scene,
    lookups: &Lookups,
    members: &Members,
    jumps: &[usize],
) -> Result<Vec<u8>, Oom>
    requires lookups { IsSearchable lookups.now }
    requires members { HasMembers members.now }
    requires jumps { AreJumps lookups.now.lines.now (back lookups.now.lines.now) most_doublings
        jumps.now }
    ensures { IfOk result (λ text.
        text.items ≡ flat_map (spec.drawing (view scene.now) lookups.now.lines.now
        members.now.cycles.now) lookups.now.lines.now) }
{
    let mut text = Vec::new(scene.alloc);
    for line in lookups.lines {
        let added = drawing(scene, lookups, members, jumps, line)?;
        text.extend_from_slice(added.as_slice())?;
    }
    Ok(text)
}

/// How many tasks are left out.
fn undrawn(lines: &[TraceLine]) -> usize
    ensures { result ≡ spec.undrawn lines.now }
{
    let mut count = 0;
    for line in lines {
        if !is_drawn(lines, line) {
            count += 1;
        }
    }
    count
}

/// A node that tells how many, where some are.
fn undrawn_node(alloc: Global, count: usize) -> Result<Vec<u8>, Oom>
    ensures { IfOk result (λ text. text.items ≡ spec.undrawn_node count) }
{
    if count == 0 {
        return Ok(Vec::new(alloc));
    }
    count_text(
        alloc,
        b"  more [shape=note, label=\"",
        count as u128,
        b" more ended and owe nothing\"];\n",
    )
}

/// The picture, where these are the members of the cycles.
pub fn dot_text(scene: &Scene, lookups: &Lookups, members: &Members) -> Result<Vec<u8>, Oom>
    requires lookups { IsSearchable lookups.now }
    requires members { HasMembers members.now }
    ensures { IfOk result (λ text.
        text.items ≡ spec.dot_text (view scene.now) lookups.now.lines.now
        members.now.cycles.now) }
{
    let jumps = jumps_of(scene.alloc, lookups, Way::Back)?;
    let tasks = drawings(scene, lookups, members, jumps.as_slice())?;
    let more = undrawn_node(scene.alloc, undrawn(lookups.lines))?;
    let head = b"digraph tasks {\n  node [shape=box];\n";
    joined(
        scene.alloc,
        &[head, tasks.as_slice(), more.as_slice(), b"}\n"],
    )
}
