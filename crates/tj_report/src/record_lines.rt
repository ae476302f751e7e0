//! The lines of a task, from its record: its prints, what became of it, and what it owes.
ghost use Rattle.std.specs.Prelude.{◌≡◌, ◌++◌, ◌<◌, ◌||◌, List, Some, length, map, IfOk};
ghost use Rattle.std.specs.List.{AllByRecursion};
ghost use Rattle.tj_body.specs.Names.{in_order};
ghost use Rattle.tj_body.specs.declared.point.Reference.{Reference};
ghost use Rattle.tj_mean.specs.declared.outcome.Ending.{Ending};
ghost use Rattle.tj_mean.specs.declared.stopped.Stopped.{Stopped};
ghost use Rattle.tj_report.specs.Inner.CellNames.{IsBelow, name_in};
ghost use Rattle.tj_report.specs.Inner.CellNamesBy.{names_by};
ghost use Rattle.tj_report.specs.Inner.ToldRecords as told;
ghost use Rattle.tj_report.specs.Inner.WalkedReports.{has_failed, has_trouble};
ghost use Rattle.tj_mean.specs.ReportTexts.{cause_text, ending_text, lines_of, owes_line, shown_text};
ghost use Rattle.tj_words.specs.AtRest.ClosedCells.{AreNamed};

use crate::awaited_cells::awaited;
use crate::cell_names::in_name_order;
use crate::climbed_names::{add_cell, climbed_names};
use crate::report::{add_owed, add_prints};
use std::alloc::Global;
use tj_base::{CellId, Oom, add_signed};
use tj_body::Body;
use tj_words::{Fill, Finish, Hurt, Rec, RestWords};

/// Whether the task with this record failed, owes or waits, or another one does.
pub fn marked_by<B>(r: &Rec<B>, marked: bool) -> bool
    ensures { result ≡ (has_trouble r.now.finish r.now.owed || marked) }
{
    has_trouble(r) || marked
}

/// Whether the task with this record failed, owes or waits.
fn has_trouble<B>(r: &Rec<B>) -> bool
    ensures { result ≡ has_trouble r.now.finish r.now.owed }
{
    match r.finish() {
        None => true,
        Some(finish) => has_failed(finish) || !r.owed().is_empty(),
    }
}

/// Whether the task failed.
fn has_failed(finish: Finish) -> bool
    ensures { result ≡ has_failed finish }
{
    match finish {
        Finish::Done(_) => false,
        Finish::Failed(_) => true,
    }
}

/// Adds the lines of the task with this record and this printed name: those of what is told of it.
pub fn add_lines<B: Body>(
    alloc: Global,
    rest: &RestWords<B>,
    name: &[u8],
    r: &Rec<B>,
    text: &mut Vec<u8>,
) -> Result<(), Oom>
    requires below { told.IsRecordBelow (length rest.now.cells) r.now }
    requires named { (born : List Reference) × AreNamed rest.now.cells born }
    ensures { IfOk result (λ _. (s : Stopped) → told.told_by (names_by rest.now.cells) r.now ≡ Some s
        → text.new.items ≡ text.old.items ++ lines_of name.now s.line) }
{
    add_prints(name, r.prints(), text)?;
    text.extend_from_slice(name)?;
    add_end(alloc, rest, r, text)?;
    text.push(b'\n')?;
    add_owed_line(alloc, rest, name, r.owed(), text)?;
    Ok(())
}

/// Adds what became of the task with this record.
fn add_end<B: Body>(
    alloc: Global,
    rest: &RestWords<B>,
    r: &Rec<B>,
    text: &mut Vec<u8>,
) -> Result<(), Oom>
    requires below { told.IsEndBelow (length rest.now.cells) r.now.finish r.now.answer r.now.held }
    requires named { (born : List Reference) × AreNamed rest.now.cells born }
    ensures { IfOk result (λ _. (e : Ending)
        → told.ending_by (names_by rest.now.cells) r.now.finish r.now.answer r.now.held ≡ Some e
        → text.new.items ≡ text.old.items ++ ending_text e) }
{
    let ended = r.finish();
    if let Some(finish) = ended {
        add_finish(alloc, rest, finish, text)?;
        return Ok(());
    }
    if let Some(c) = awaited(r) {
        add_cell(alloc, b" waits for ", rest, c, text)?;
    }
    Ok(())
}

/// Adds a line for what the task with this printed name owes, if it owes something.
fn add_owed_line<B: Body>(
    alloc: Global,
    rest: &RestWords<B>,
    name: &[u8],
    owed: &[CellId],
    text: &mut Vec<u8>,
) -> Result<(), Oom>
    requires below { AllByRecursion (IsBelow (length rest.now.cells)) owed.now }
    requires named { (born : List Reference) × AreNamed rest.now.cells born }
    ensures { IfOk result (λ _. text.new.items ≡ text.old.items
        ++ owes_line name.now (in_order (map (name_in (names_by rest.now.cells)) owed.now))) }
{
    if owed.is_empty() {
        return Ok(());
    }
    let owes = in_name_order(climbed_names(alloc, rest, owed)?)?;
    add_owed(alloc, name, owes.items(), text)
}

/// Adds what became of a task.
fn add_finish<B: Body>(
    alloc: Global,
    rest: &RestWords<B>,
    finish: Finish,
    text: &mut Vec<u8>,
) -> Result<(), Oom>
    requires below { told.IsFinishBelow (length rest.now.cells) finish }
    requires named { (born : List Reference) × AreNamed rest.now.cells born }
    ensures { IfOk result (λ _. text.new.items ≡ text.old.items
        ++ ending_text (told.finished_by (names_by rest.now.cells) finish)) }
{
    match finish {
        Finish::Done(fill) => {
            text.extend_from_slice(b" done ")?;
            add_fill(alloc, rest, fill, text)
        }
        Finish::Failed(hurt) => {
            text.extend_from_slice(b" failed ")?;
            add_hurt(alloc, rest, hurt, text)
        }
    }
}

/// Adds the value with which a cell is filled.
fn add_fill<B: Body>(
    alloc: Global,
    rest: &RestWords<B>,
    fill: Fill,
    text: &mut Vec<u8>,
) -> Result<(), Oom>
    requires below { told.IsFillBelow (length rest.now.cells) fill }
    requires named { (born : List Reference) × AreNamed rest.now.cells born }
    ensures { IfOk result (λ _. text.new.items
        ≡ text.old.items ++ shown_text (told.shown_by (names_by rest.now.cells) fill)) }
{
    match fill {
        Fill::Num(number) => add_signed(text, number),
        Fill::Promise(c) => add_cell(alloc, b"@", rest, c, text),
        Fill::Task(c) => add_cell(alloc, b"@", rest, c, text),
    }
}

/// Adds why a task failed.
fn add_hurt<B: Body>(
    alloc: Global,
    rest: &RestWords<B>,
    hurt: Hurt,
    text: &mut Vec<u8>,
) -> Result<(), Oom>
    requires below { told.IsHurtBelow (length rest.now.cells) hurt }
    requires named { (born : List Reference) × AreNamed rest.now.cells born }
    ensures { IfOk result (λ _. text.new.items
        ≡ text.old.items ++ cause_text (told.cause_by (names_by rest.now.cells) hurt)) }
{
    match hurt {
        Hurt::Arith => text.extend_from_slice(b"arith")?,
        Hurt::Kind => text.extend_from_slice(b"kind")?,
        Hurt::Steps => text.extend_from_slice(b"steps")?,
        Hurt::Owner(c) => return add_cell(alloc, b"owner ", rest, c, text),
        Hurt::Broken(c) => return add_cell(alloc, b"broken ", rest, c, text),
        Hurt::Order(c) => return add_cell(alloc, b"order ", rest, c, text),
    }
    Ok(())
}
