//! The report of a run, from the words and records of its table at rest. It is written in one walk
//! over the fork tree: no name is made for a task, and no task is sorted.
ghost use Rattle.std.specs.Prelude.{◌≡◌, ◌<◌, true, false, IfOk, IfSome, IsTrue, Some, None, get_or, length};
ghost use Rattle.tj_base.specs.Texts.{name_text};
ghost use Rattle.tj_body.specs.Programs.{program_of};
ghost use Rattle.tj_report.specs.Inner.CellNamesBy.{name_by};
ghost use Rattle.tj_report.specs.Inner.WalkedReports.{AreToldBelow, IsWalkedBefore, IsWalkedTo};
ghost use Rattle.tj_report.specs.RestReports.{IsReportOf};
ghost use Rattle.tj_words.specs.AtRest.RestMeaning.{HaveMeaning};
ghost use Rattle.tj_record.specs.declared.record.Rec.{Rec};

use crate::alarm_lines::add_alarms;
use crate::closed_outcome::outcome_of;
use crate::fork_walk::{kin_of, next_task};
use crate::record_lines::{add_lines, marked_by};
use crate::report::{add_last, report_text};
use std::alloc::Global;
use tj_base::{CellId, Oom};
use tj_body::Body;
use tj_mean::marked;
use tj_words::RestWords;

/// The text of a report, and whether it says that the outcome is marked.
#[derive(Drop)]
pub struct RestReport {
    pub text: Vec<u8>,
    pub marked: bool,
}

/// The report of the meaning that the closed words and records are those of: that of some outcome,
/// as `outcome_of` gives one.
pub fn report_at_rest<B: Body>(alloc: Global, rest: &RestWords<B>) -> Result<RestReport, Oom>
    requires { HaveMeaning (program_of B.places B.awaits B.left B.asks B.then rest.now.strict
        rest.now.root) rest.now.limit rest.now.cells rest.now.records }
    // The text is the report, line by line, of an outcome of the meaning that the closed words and
    // records are those of, and says that it is marked exactly where that outcome is; each cycle of
    // it has a member that has alarmed where each of the meaning's has.
    ensures { let p = program_of B.places B.awaits B.left B.asks B.then rest.now.strict
        rest.now.root in IfOk result (λ given.
        IsReportOf p rest.now.limit rest.now.cells given.text.items given.marked) }
{
    if let Some(report) = walked_report(alloc, rest)? {
        return Ok(report);
    }
    told_report(alloc, rest)
}

/// The report of the outcome.
fn told_report<B: Body>(alloc: Global, rest: &RestWords<B>) -> Result<RestReport, Oom>
    requires { HaveMeaning (program_of B.places B.awaits B.left B.asks B.then rest.now.strict
        rest.now.root) rest.now.limit rest.now.cells rest.now.records }
    ensures { let p = program_of B.places B.awaits B.left B.asks B.then rest.now.strict
        rest.now.root in IfOk result (λ given.
        IsReportOf p rest.now.limit rest.now.cells given.text.items given.marked) }
{
    let outcome = outcome_of(alloc, rest)?;
    let text = report_text(alloc, &outcome)?;
    Ok(RestReport {
        text,
        marked: marked(&outcome),
    })
}

/// The report, if the walk meets each task.
fn walked_report<B: Body>(alloc: Global, rest: &RestWords<B>) -> Result<Option<RestReport>, Oom>
    requires { HaveMeaning (program_of B.places B.awaits B.left B.asks B.then rest.now.strict
        rest.now.root) rest.now.limit rest.now.cells rest.now.records }
    ensures { let p = program_of B.places B.awaits B.left B.asks B.then rest.now.strict
        rest.now.root in IfOk result (λ found. IfSome found (λ given.
        IsReportOf p rest.now.limit rest.now.cells given.text.items given.marked)) }
{
    let kin = kin_of(alloc, rest)?;
    let mut told = Vec::from_elem(alloc, false, rest.drawn() as usize)?;
    let mut order = Vec::with_capacity(alloc, rest.drawn() as usize)?;
    let mut text = Vec::new(alloc);
    let mut name = Vec::from_slice(alloc, b"0")?;
    let mut marked = false;
    let mut at = 0;
    for _step in 0..rest.drawn() {
        let found = tell(
            alloc,
            rest,
            at,
            name.as_slice(),
            marked,
            &mut told,
            &mut order,
            &mut text,
        )?;
        let Some(further) = found else {
            return Ok(None);
        };
        marked = further;
        match next_task(rest, kin.as_slice(), at, &mut name)? {
            Some(next) => at = next,
            None => return whole(alloc, rest, at, told, order, text, marked),
        }
    }
    Ok(None)
}

/// Tells the task of a cell, and whether one is troubled now.
fn tell<B: Body>(
    alloc: Global,
    rest: &RestWords<B>,
    at: u32,
    name: &[u8],
    marked: bool,
    told: &mut Vec<bool>,
    order: &mut Vec<u32>,
    text: &mut Vec<u8>,
) -> Result<Option<bool>, Oom>
    requires meaning { HaveMeaning (program_of B.places B.awaits B.left B.asks B.then
        rest.now.strict rest.now.root) rest.now.limit rest.now.cells rest.now.records }
    requires there { at < length rest.now.cells }
    requires sized { length told.old.items ≡ length rest.now.cells }
    requires name { name.now ≡ name_text (name_by rest.now.cells at) }
    requires walked { IsWalkedBefore (program_of B.places B.awaits B.left B.asks B.then
        rest.now.strict rest.now.root) rest.now.limit rest.now.cells rest.now.records
        at order.old.items told.old.items text.old.items marked }
    ensures sized { length told.new.items ≡ length rest.now.cells }
    ensures walked { let p = program_of B.places B.awaits B.left B.asks B.then rest.now.strict
        rest.now.root in IfOk result (λ found. IfSome found (λ further.
        IsWalkedTo p rest.now.limit rest.now.cells rest.now.records
        at order.new.items told.new.items text.new.items further)) }
{
    let Some(r) = rest.rec(CellId(at)) else {
        return Ok(None);
    };
    add_lines(alloc, rest, name, r, text)?;
    told[at as usize] = true;
    order.push(at)?;
    Ok(Some(marked_by(r, marked)))
}

/// The report with its alarms and its last line, if all tasks are told.
fn whole<B: Body>(
    alloc: Global,
    rest: &RestWords<B>,
    at: u32,
    told: Vec<bool>,
    order: Vec<u32>,
    mut text: Vec<u8>,
    marked: bool,
) -> Result<Option<RestReport>, Oom>
    requires meaning { HaveMeaning (program_of B.places B.awaits B.left B.asks B.then
        rest.now.strict rest.now.root) rest.now.limit rest.now.cells rest.now.records }
    requires sized { length told.items ≡ length rest.now.cells }
    requires walked { IsWalkedTo (program_of B.places B.awaits B.left B.asks B.then
        rest.now.strict rest.now.root) rest.now.limit rest.now.cells rest.now.records
        at order.items told.items text.items marked }
    ensures { let p = program_of B.places B.awaits B.left B.asks B.then rest.now.strict
        rest.now.root in IfOk result (λ found. IfSome found (λ given.
        IsReportOf p rest.now.limit rest.now.cells given.text.items given.marked)) }
{
    if !are_told(rest, told.as_slice()) {
        return Ok(None);
    }
    if !marked {
        add_last(marked, &mut text)?;
        return Ok(Some(RestReport { text, marked }));
    }
    add_alarms(alloc, rest, order.as_slice(), &mut text)?;
    add_last(marked, &mut text)?;
    Ok(Some(RestReport { text, marked }))
}

/// Whether all tasks are told.
fn are_told<B: Body>(rest: &RestWords<B>, told: &[bool]) -> bool
    requires { length told.now ≡ length rest.now.cells }
    ensures { IsTrue result → AreToldBelow (length rest.now.cells) rest.now.records told.now }
{
    for c in 0..rest.drawn() {
        if !is_told(rest, told, c) {
            return false;
        }
    }
    true
}

/// Whether the task of a cell is told, or there is none.
fn is_told<B: Body>(rest: &RestWords<B>, told: &[bool], c: u32) -> bool
    requires there { c < length rest.now.cells }
    requires sized { length told.now ≡ length rest.now.cells }
    ensures { IsTrue result → (r : Rec B) → get_or rest.now.records c None ≡ Some r
        → get_or told.now c false ≡ true }
{
    if told[c as usize] {
        return true;
    }
    rest.rec(CellId(c)).is_none()
}
