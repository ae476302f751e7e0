//! One task's history, computed step by step, under an assignment that is kept in an ordered map,
//! from its start or from a point that it has come to.
ghost use Rattle.std.specs.Prelude.{◌≡◌, ◌<◌, ◌≤◌, ◌^◌, length, map};
ghost use Rattle.std.specs.Prelude.{IfOk, IfErr, IsSome, IsTrue, IsFalse};
ghost use Rattle.tj_body.specs.Points.{HasStopped, IsGood, IsProper, weight};
ghost use Rattle.tj_body.specs.Programs.{rules_of};
ghost use Rattle.tj_body.specs.History as history;
ghost use Rattle.tj_mean.specs.Inner.Assignments.{assignment_in};
ghost use Rattle.tj_mean.specs.Inner.Reached.{Reaches};
ghost use Rattle.tj_mean.specs.Outcomes.{ending_of};

use crate::ask_steps::{copy_reference, fail, give, take};
use crate::name_map::NameMap;
use crate::outcome::PlanFault;
use std::alloc::Global;
use tj_base::{Cause, Items, Name, Oom, Sort};
use tj_body::{Answer, Body, Entry, Point, PointStage, Reference, Task, Value};

/// Answers the wait for the cell, of which this became.
fn read<B: Body>(
    alloc: Global,
    p: &mut Point<B>,
    spare: bool,
    cell: Name,
    became: &Entry,
) -> Result<(), Oom>
    requires room { length p.old.references < 2 ^ 31 }
    ensures { IfOk result (λ _. p.new ≡ history.after_read spare cell became.now p.old) }
{
    match became {
        Entry::Broken => {
            if spare {
                give(p, Answer::Lost);
                return Ok(());
            }
            fail(alloc, p, Cause::Broken(cell))
        }
        Entry::Value(Value::Num(i)) => {
            give(p, Answer::Num(*i));
            Ok(())
        }
        Entry::Value(Value::Ref(reference)) => {
            let place = p.references.items().len() as u32;
            p.references.push(copy_reference(alloc, reference)?)?;
            give(p, Answer::RefAt(place));
            Ok(())
        }
    }
}

/// One ask more, or one answer more. False: the task has ended, or it waits on.
pub fn advance<B: Body>(
    alloc: Global,
    p: &mut Point<B>,
    given: &NameMap<Entry>,
    strict: bool,
) -> Result<bool, Oom>
    requires good { let rules = rules_of B.places B.awaits B.left B.asks B.then strict in
        IsGood rules p.old }
    ensures step { let rules = rules_of B.places B.awaits B.left B.asks B.then strict in
        IfOk result (λ _. p.new ≡ history.after_step rules (assignment_in given.now) p.old) }
    ensures stays { IfOk result (λ more. IsFalse more → p.new ≡ p.old) }
    ensures stopped { IfOk result (λ more. IsFalse more → IsSome (ending_of p.new.stage)) }
    ensures halts { IfOk result (λ more.
        IsFalse more → HasStopped (assignment_in given.now) p.old) }
    ensures falls { IfOk result (λ more. IsTrue more → weight B.left p.new < weight B.left p.old) }
{
    match &p.stage {
        PointStage::Closed(_) => Ok(false),
        PointStage::Answered(answer) => {
            let answer = *answer;
            let ask = p.body.next(alloc, answer)?;
            take(alloc, p, ask, strict)?;
            Ok(true)
        }
        PointStage::Waits { cell, spare } => match given.get(cell) {
            None => Ok(false),
            Some(became) => {
                let spare = *spare;
                let cell = cell.copy(alloc)?;
                read(alloc, p, spare, cell, became)?;
                Ok(true)
            }
        },
    }
}

/// Where the task begins.
pub fn start<B: Body>(alloc: Global, task: Task<B>) -> Result<Point<B>, Oom>
    ensures { IfOk result (λ p. p ≡ history.start task) }
{
    let mut references = Vec::new(alloc);
    references.push(Reference {
        sort: Sort::Task,
        name: task.name.copy(alloc)?,
    })?;
    references.append(&mut task.passed.into_vec())?;
    Ok(Point {
        name: task.name,
        body: task.body,
        stage: PointStage::Answered(Answer::Start),
        references: Items::of(references),
        holds: task.handed,
        made: 0,
        promises: Items::of(Vec::new(alloc)),
        children: Items::of(Vec::new(alloc)),
        writes: Items::of(Vec::new(alloc)),
        prints: Items::of(Vec::new(alloc)),
        owed: Items::of(Vec::new(alloc)),
    })
}

/// The task goes on from this point to where it stops. `Full` where on the way it has made more
/// than `most` things.
pub fn go_on<B: Body>(
    alloc: Global,
    p: &mut Point<B>,
    given: &NameMap<Entry>,
    strict: bool,
    most: u32,
) -> Result<(), PlanFault>
    requires good { let rules = rules_of B.places B.awaits B.left B.asks B.then strict in
        IsGood rules p.old }
    requires made { p.old.made ≤ most }
    ensures reached { let rules = rules_of B.places B.awaits B.left B.asks B.then strict in
        IfOk result (λ _. Reaches rules (assignment_in given.now) p.old p.new) }
    ensures fits { IfOk result (λ _. p.new.made ≤ most) }
    ensures falls { IfOk result (λ _. ¬ HasStopped (assignment_in given.now) p.old
        → weight B.left p.new < weight B.left p.old) }
    ensures full { let rules = rules_of B.places B.awaits B.left B.asks B.then strict in
        IfErr result (λ e. e ≡ PlanFault.Full
        → Reaches rules (assignment_in given.now) p.old p.new × (most < p.new.made)) }
{
    loop {
        if !advance(alloc, p, given, strict)? {
            return Ok(());
        }
        if p.made > most {
            return Err(PlanFault::Full);
        }
    }
}

/// The task goes on from this point to where it stops.
pub fn go_to_stop<B: Body>(
    alloc: Global,
    p: &mut Point<B>,
    given: &NameMap<Entry>,
    strict: bool,
) -> Result<(), Oom>
    requires good { let rules = rules_of B.places B.awaits B.left B.asks B.then strict in
        IsGood rules p.old }
    ensures reached { let rules = rules_of B.places B.awaits B.left B.asks B.then strict in
        IfOk result (λ _. Reaches rules (assignment_in given.now) p.old p.new) }
    ensures stopped { IfOk result (λ _. HasStopped (assignment_in given.now) p.new) }
{
    loop {
        if !advance(alloc, p, given, strict)? {
            return Ok(());
        }
    }
}

/// The history of the task.
pub fn history<B: Body>(
    alloc: Global,
    task: Task<B>,
    given: &NameMap<Entry>,
    strict: bool,
) -> Result<Point<B>, Oom>
    requires proper { let rules = rules_of B.places B.awaits B.left B.asks B.then strict in
        IsProper rules task }

    // The point is where the task's history stops under these entries.
    ensures { let rules = rules_of B.places B.awaits B.left B.asks B.then strict in
        IfOk result (λ p. p ≡ history.history rules (assignment_in given.now) task) }
{
    let mut p = start(alloc, task)?;
    go_to_stop(alloc, &mut p, given, strict)?;
    Ok(p)
}
