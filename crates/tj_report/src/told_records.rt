//! What is told of a task by its record: enough for its line and for the wait graph.
ghost use Rattle.std.specs.Prelude.{◌≡◌, length, Some, IfOk};
ghost use Rattle.tj_report.specs.Inner.ToldRecords as told;

use crate::cell_names::{in_name_order, name_in, names_in};
use std::alloc::Global;
use tj_base::{Cause, CellId, Items, Name, Oom, Shown};
use tj_body::Answer;
use tj_mean::{Ending, Stopped, TaskLine};
use tj_words::{Fill, Finish, Hurt, Rec};

/// What is told of the task with this record.
pub fn told_by<B>(alloc: Global, names: &[Name], r: &Rec<B>) -> Result<Stopped, Oom>
    requires { told.IsRecordBelow (length names.now) r.now }
    ensures { IfOk result (λ s. told.told_by names.now r.now ≡ Some s) }
{
    let name = name_in(alloc, names, r.cell())?;
    let prints = Items::of(Vec::from_slice(alloc, r.prints())?);
    let owes = in_name_order(names_in(alloc, names, r.owed())?)?;
    let holds = Items::of(names_in(alloc, names, r.promises())?);
    let ending = ending_by(alloc, names, r)?;
    let line = TaskLine {
        name,
        prints,
        ending,
        owes,
    };
    Ok(Stopped { line, holds })
}

/// What became of the task with this record.
fn ending_by<B>(alloc: Global, names: &[Name], r: &Rec<B>) -> Result<Ending, Oom>
    requires { told.IsEndBelow (length names.now) r.now.finish r.now.answer r.now.held }
    ensures { IfOk result (λ e.
        told.ending_by names.now r.now.finish r.now.answer r.now.held ≡ Some e) }
{
    match (r.finish(), r.answer()) {
        (Some(finish), _) => finished_by(alloc, names, finish),
        (None, Answer::RefAt(k)) => match r.find(k) {
            Some(held) => Ok(Ending::Waits(name_in(alloc, names, held.cell)?)),
            None => unreachable!(),
        },
        (None, _) => unreachable!(),
    }
}

/// What became of a task that ended.
fn finished_by(alloc: Global, names: &[Name], finish: Finish) -> Result<Ending, Oom>
    requires { told.IsFinishBelow (length names.now) finish }
    ensures { IfOk result (λ e. e ≡ told.finished_by names.now finish) }
{
    match finish {
        Finish::Done(fill) => Ok(Ending::Done(shown_by(alloc, names, fill)?)),
        Finish::Failed(hurt) => Ok(Ending::Failed(cause_by(alloc, names, hurt)?)),
    }
}

/// The value with which a cell is filled.
fn shown_by(alloc: Global, names: &[Name], fill: Fill) -> Result<Shown, Oom>
    requires { told.IsFillBelow (length names.now) fill }
    ensures { IfOk result (λ v. v ≡ told.shown_by names.now fill) }
{
    match fill {
        Fill::Num(i) => Ok(Shown::Num(i)),
        Fill::Promise(c) | Fill::Task(c) => Ok(Shown::Ref(name_in(alloc, names, c)?)),
    }
}

/// Why a task failed.
fn cause_by(alloc: Global, names: &[Name], hurt: Hurt) -> Result<Cause, Oom>
    requires { told.IsHurtBelow (length names.now) hurt }
    ensures { IfOk result (λ c. c ≡ told.cause_by names.now hurt) }
{
    match hurt {
        Hurt::Arith => Ok(Cause::Arith),
        Hurt::Kind => Ok(Cause::Kind),
        Hurt::Steps => Ok(Cause::Steps),
        Hurt::Owner(c) => Ok(Cause::Owner(name_in(alloc, names, c)?)),
        Hurt::Broken(c) => Ok(Cause::Broken(name_in(alloc, names, c)?)),
        Hurt::Order(c) => Ok(Cause::Order(name_in(alloc, names, c)?)),
    }
}
