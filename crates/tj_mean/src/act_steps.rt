//! A task's history once more, with its acts noted: its forks, and those of its joins that are of
//! a task.
ghost use Rattle.std.specs.Prelude.{◌≡◌, ◌<◌, ◌≤◌, ◌++◌, suc, length};
ghost use Rattle.std.specs.Prelude.{false, IfOk, IsSome, IsTrue, IsFalse};
ghost use Rattle.tj_body.specs.Asks.{IsPlaced};
ghost use Rattle.tj_body.specs.Points.{IsGood, IsProper, MayAnswer, weight};
ghost use Rattle.tj_body.specs.Programs.{rules_of};
ghost use Rattle.tj_body.specs.History as history;
ghost use Rattle.tj_mean.specs.Acts as spec;
ghost use Rattle.tj_mean.specs.Inner.Assignments.{assignment_in};
ghost use Rattle.tj_mean.specs.Inner.NotedActs as noted;
ghost use Rattle.tj_mean.specs.Outcomes.{ending_of};

use crate::act::{Act, ActLine, ActList};
use crate::ask_steps::take;
use crate::history_steps::{advance, start};
use crate::name_map::NameMap;
use std::alloc::Global;
use std::mem::replace;
use tj_base::{Items, Name, Oom, Sort};
use tj_body::{Answer, Ask, Body, Entry, Point, PointStage, Task};

/// The task that the ask joins, if it is a join of one.
fn joined_by<B: Body>(alloc: Global, p: &Point<B>, ask: &Ask<B>) -> Result<Option<Name>, Oom>
    requires { IsPlaced B.places B.awaits B.left (length p.now.references) ask.now }
    ensures { IfOk result (λ joined. joined ≡ noted.joined_by p.now ask.now) }
{
    match ask {
        Ask::Join { t } | Ask::JoinOr { t } => {
            let reference = &p.references.items()[*t as usize];
            match reference.sort {
                Sort::Task => Ok(Some(reference.name.copy(alloc)?)),
                Sort::Promise => Ok(None),
            }
        }
        _ => Ok(None),
    }
}

/// Adds the join, and whether it is answered.
fn note_join(joined: Option<Name>, given: &NameMap<Entry>, acts: &mut ActList) -> Result<(), Oom>
    ensures { IfOk result (λ _. acts.new
        ≡ acts.old ++ noted.join_noted (assignment_in given.now) joined) }
{
    if let Some(name) = joined {
        let answered = given.get(&name).is_some();
        acts.push(Act::Join(name, answered))?;
    }
    Ok(())
}

/// Adds the fork of the child with this index among the task's children, if it is there.
fn note_fork<B: Body>(
    alloc: Global,
    p: &Point<B>,
    forked: usize,
    acts: &mut ActList,
) -> Result<(), Oom>
    ensures { IfOk result (λ _. acts.new ≡ acts.old ++ noted.forked_since forked p.now) }
{
    if let Some(child) = p.children.items().get(forked) {
        acts.push(Act::Fork(child.name.copy(alloc)?))?;
    }
    Ok(())
}

/// The ask that the body gives for this answer, with the act that it is.
fn ask_noting<B: Body>(
    alloc: Global,
    p: &mut Point<B>,
    answer: Answer,
    given: &NameMap<Entry>,
    acts: &mut ActList,
) -> Result<(), Oom>
    requires good { let rules = rules_of B.places B.awaits B.left B.asks B.then false in
        MayAnswer rules answer p.old }
    requires made { suc p.old.made ≤ length p.old.references }
    ensures step { let rules = rules_of B.places B.awaits B.left B.asks B.then false in
        let V = assignment_in given.now in
        IfOk result (λ _. p.new ≡ history.after_stage rules V (PointStage.Answered answer) p.old) }
    ensures acts { let ask = B.asks p.old.body answer in
        let V = assignment_in given.now in
        IfOk result (λ _. acts.new ≡ acts.old ++ spec.ask_acts V ask p.old) }
{
    let forked = p.children.items().len();
    let ask = p.body.next(alloc, answer)?;
    let joined = joined_by(alloc, p, &ask)?;
    take(alloc, p, ask, false)?;
    note_join(joined, given, acts)?;
    note_fork(alloc, p, forked, acts)
}

/// One ask more, or one answer more, with the act that it is. False: the task has ended, or it
/// waits on.
fn advance_noting<B: Body>(
    alloc: Global,
    p: &mut Point<B>,
    given: &NameMap<Entry>,
    acts: &mut ActList,
) -> Result<bool, Oom>
    requires good { let rules = rules_of B.places B.awaits B.left B.asks B.then false in
        IsGood rules p.old }
    ensures step { let rules = rules_of B.places B.awaits B.left B.asks B.then false in
        IfOk result (λ _. p.new ≡ history.after_step rules (assignment_in given.now) p.old) }
    ensures acts { let rules = rules_of B.places B.awaits B.left B.asks B.then false in
        let V = assignment_in given.now in
        IfOk result (λ _. acts.new ≡ acts.old ++ spec.step_acts rules V p.old) }
    ensures stays { IfOk result (λ more. IsFalse more → p.new ≡ p.old) }
    ensures stopped { IfOk result (λ more. IsFalse more → IsSome (ending_of p.new.stage)) }
    ensures falls { IfOk result (λ more. IsTrue more → weight B.left p.new < weight B.left p.old) }
{
    match &p.stage {
        PointStage::Answered(answer) => {
            let answer = *answer;
            ask_noting(alloc, p, answer, given, acts)?;
            Ok(true)
        }
        _ => advance(alloc, p, given, false),
    }
}

/// The task with its acts, and the children that it forks.
pub fn line_of<B: Body>(
    alloc: Global,
    task: Task<B>,
    given: &NameMap<Entry>,
) -> Result<(ActLine, Vec<Task<B>>), Oom>
    requires proper { let rules = rules_of B.places B.awaits B.left B.asks B.then false in
        IsProper rules task }
    ensures line { let rules = rules_of B.places B.awaits B.left B.asks B.then false in
        let V = assignment_in given.now in
        IfOk result (λ found. found.0 ≡ spec.line_of rules V task) }
    ensures children { let rules = rules_of B.places B.awaits B.left B.asks B.then false in
        let V = assignment_in given.now in
        IfOk result (λ found. found.1.items ≡ (history.history rules V task).children) }
{
    let mut p = start(alloc, task)?;
    let mut acts = Items::of(Vec::new(alloc));
    loop {
        match advance_noting(alloc, &mut p, given, &mut acts) {
            Ok(true) => {}
            Ok(false) => return Ok(parts_of(alloc, p, acts)),
            Err(fault) => {
                drop(p);
                drop(acts);
                return Err(fault);
            }
        }
    }
}

/// The line of a point with these acts, and its children.
fn parts_of<B: Body>(alloc: Global, p: Point<B>, acts: ActList) -> (ActLine, Vec<Task<B>>)
    ensures line { result.0 ≡ record { name = p.name; acts = acts } }
    ensures children { result.1.items ≡ p.children }
{
    let mut p = p;
    let name = replace(&mut p.name, Name::root());
    let children = replace(&mut p.children, Items::of(Vec::new(alloc))).into_vec();
    drop(p);
    (ActLine { name, acts }, children)
}
