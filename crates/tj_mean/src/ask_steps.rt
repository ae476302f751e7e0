//! What each ask makes of a point of a task's history.
ghost use Rattle.std.specs.Prelude.{ℕ, suc, ◌≡◌, ◌<◌, ◌≤◌, ◌^◌, ◌∷◌, [], ◌++◌, length, map, false};
ghost use Rattle.std.specs.Prelude.{IfErr, IfOk, Err, Ok};
ghost use Rattle.tj_body.specs.Asks.{IsPaid, IsPlaced};
ghost use Rattle.std.specs.List.{AllByRecursion};
ghost use Rattle.std.specs.List.Sorted.{IsPermutation};
ghost use Rattle.tj_body.specs.History as history;

use crate::held_names::{index_of, sorted};
use std::alloc::Global;
use std::mem::replace;
use tj_base::{Cause, Items, Name, NameList, Oom, Pay, PlaceList, Sort, Trouble, path_before};
use tj_body::{
    Answer, Ask, Body, Close, Entry, EntryList, Point, PointStage, Reference, Task, Value,
    names_and_cells,
};

/// An equal reference.
pub fn copy_reference(alloc: Global, r: &Reference) -> Result<Reference, Oom>
    ensures { IfOk result (λ copy. copy ≡ r.now) }
{
    Ok(Reference {
        sort: r.sort,
        name: r.name.copy(alloc)?,
    })
}

/// The value that a body gives.
fn value_at<B: Body>(alloc: Global, p: &Point<B>, v: Pay) -> Result<Value, Oom>
    requires { IsPaid (length p.now.references) v }
    ensures { IfOk result (λ value. value ≡ history.value_at p.now.name p.now.references v) }
{
    match v {
        Pay::Num(i) => Ok(Value::Num(i)),
        Pay::Ref(k) => {
            let reference = &p.references.items()[k as usize];
            Ok(Value::Ref(copy_reference(alloc, reference)?))
        }
    }
}

/// The body is to be given this answer.
pub fn give<B: Body>(p: &mut Point<B>, answer: Answer)
    ensures { p.new ≡ history.with_answer answer p.old }
{
    drop(replace(&mut p.stage, PointStage::Answered(answer)));
}

/// The task waits for the cell.
fn wait_for<B: Body>(p: &mut Point<B>, cell: Name, spare: bool)
    ensures { p.new ≡ history.with_wait spare cell p.old }
{
    drop(replace(&mut p.stage, PointStage::Waits { cell, spare }));
}

/// The name of the next thing that the task makes, to which it has a reference from here on.
fn refer_to_next<B: Body>(alloc: Global, p: &mut Point<B>, sort: Sort) -> Result<Name, Oom>
    requires few { p.old.made < 2 ^ 31 }
    ensures name { IfOk result (λ name. name ≡ history.next_name p.old) }
    ensures made { IfOk result (λ _. p.new ≡ record (p.old) {
      references = p.old.references ++ record { sort = sort; name = history.next_name p.old } ∷ [];
      made = suc p.old.made;
    }) }
{
    p.made += 1;
    let name = p.name.child(alloc, p.made)?;
    let reference = Reference {
        sort,
        name: name.copy(alloc)?,
    };
    p.references.push(reference)?;
    Ok(name)
}

/// The task makes a promise, and owns it.
fn make<B: Body>(alloc: Global, p: &mut Point<B>) -> Result<(), Oom>
    requires room { length p.old.references < 2 ^ 31 }
    requires few { p.old.made < 2 ^ 31 }
    ensures { IfOk result (λ _. p.new ≡ history.after_new p.old) }
{
    let place = p.references.items().len() as u32;
    let name = refer_to_next(alloc, p, Sort::Promise)?;
    p.holds.push(name.copy(alloc)?)?;
    p.promises.push(name)?;
    give(p, Answer::Local(place));
    Ok(())
}

/// The task ends.
fn end<B: Body>(alloc: Global, p: &mut Point<B>, close: Close, became: Entry) -> Result<(), Oom>
    ensures { IfOk result (λ _. p.new ≡ history.after_close close became p.old) }
{
    drop(replace(&mut p.stage, PointStage::Closed(close)));
    p.writes.push((p.name.copy(alloc)?, became))?;
    let owed = sorted(replace(&mut p.holds, Items::of(Vec::new(alloc))))?;
    break_all(alloc, &mut p.writes, owed.items())?;
    p.owed = owed;
    Ok(())
}

/// Adds that each of these cells is broken.
fn break_all(alloc: Global, writes: &mut EntryList, owed: &[Name]) -> Result<(), Oom>
    ensures { IfOk result (λ _. writes.new
        ≡ writes.old ++ map (history.with_entry Entry.Broken) owed.now) }
{
    for name in owed {
        writes.push((name.copy(alloc)?, Entry::Broken))?;
    }
    Ok(())
}

/// The task fails.
pub fn fail<B: Body>(alloc: Global, p: &mut Point<B>, cause: Cause) -> Result<(), Oom>
    ensures { IfOk result (λ _. p.new ≡ history.after_failure cause p.old) }
{
    end(alloc, p, Close::Failed(cause), Entry::Broken)
}

/// The references with these places.
fn references_at<B: Body>(
    alloc: Global,
    p: &Point<B>,
    places: &[u32],
) -> Result<Vec<Reference>, Oom>
    requires { AllByRecursion (λ k. k < length p.now.references) places.now }
    ensures { IfOk result (λ found. found.items ≡ map (history.reference p.now) places.now) }
{
    let references = p.references.items();
    let mut found = Vec::new(alloc);
    for place in places {
        found.push(copy_reference(alloc, &references[*place as usize])?)?;
    }
    Ok(found)
}

/// The names of the references with these places.
fn names_at<B: Body>(alloc: Global, p: &Point<B>, places: &[u32]) -> Result<NameList, Oom>
    requires { AllByRecursion (λ k. k < length p.now.references) places.now }
    ensures { IfOk result (λ names. names
        ≡ map (λ k. (history.reference p.now k).name) places.now) }
{
    let references = p.references.items();
    let mut names = Vec::new(alloc);
    for place in places {
        names.push(references[*place as usize].name.copy(alloc)?)?;
    }
    Ok(Items::of(names))
}

/// What is left of the promises held when these are handed from the left, or why that fails, and
/// the promises held, in some order. No name is copied: those handed are taken out, and put back.
fn hand_all(
    alloc: Global,
    holds: NameList,
    handed: &[Reference],
) -> Result<Result<NameList, (Cause, NameList)>, Oom>
    ensures left { IfOk result (λ r. IfOk r (λ left. history.hand_all holds handed.now ≡ Ok left)) }
    ensures fails { IfOk result (λ r. IfErr r (λ e. history.hand_all holds handed.now ≡ Err e.0)) }
    ensures keeps { IfOk result (λ r. IfErr r (λ e. IsPermutation holds e.1)) }
{
    let mut left = holds.into_vec();
    let mut taken = Vec::new(alloc);
    for reference in handed {
        if let Sort::Task = reference.sort {
            taken.append(&mut left)?;
            return Ok(Err((Cause::Kind, Items::of(taken))));
        }
        match index_of(left.as_slice(), &reference.name) {
            None => {
                taken.append(&mut left)?;
                let name = reference.name.copy(alloc)?;
                return Ok(Err((Cause::Owner(name), Items::of(taken))));
            }
            Some(at) => taken.push(left.remove(at))?,
        }
    }
    Ok(Ok(Items::of(left)))
}

/// What a Fork makes of the point.
fn fork<B: Body>(
    alloc: Global,
    p: &mut Point<B>,
    body: B,
    pass: &PlaceList,
    hand: &PlaceList,
) -> Result<(), Oom>
    requires pass { AllByRecursion (λ k. k < length p.old.references) pass.now }
    requires hand { AllByRecursion (λ k. k < length p.old.references) hand.now }
    requires room { length p.old.references < 2 ^ 31 }
    requires few { p.old.made < 2 ^ 31 }
    ensures { let ask = Ask.Fork body pass.now hand.now in
        IfOk result (λ _. p.new ≡ history.after_ask false ask p.old) }
{
    let given = references_at(alloc, p, hand.items())?;
    let holds = replace(&mut p.holds, Items::of(Vec::new(alloc)));
    match hand_all(alloc, holds, given.as_slice())? {
        Err((cause, held)) => {
            names_and_cells();
            p.holds = held;
            fail(alloc, p, cause)
        }
        Ok(left) => {
            p.holds = left;
            let passed = Items::of(references_at(alloc, p, pass.items())?);
            let handed = names_at(alloc, p, hand.items())?;
            let place = p.references.items().len() as u32;
            let name = refer_to_next(alloc, p, Sort::Task)?;
            p.children.push(Task {
                name,
                body,
                passed,
                handed,
            })?;
            give(p, Answer::Local(place));
            Ok(())
        }
    }
}

/// What a Set makes of the point.
fn set<B: Body>(alloc: Global, p: &mut Point<B>, k: u32, v: Pay) -> Result<(), Oom>
    requires place { k < length p.old.references }
    requires value { IsPaid (length p.old.references) v }
    ensures { IfOk result (λ _. p.new ≡ history.after_ask false (Ask.Set k v) p.old) }
{
    let reference = copy_reference(alloc, &p.references.items()[k as usize])?;
    if let Sort::Task = reference.sort {
        return fail(alloc, p, Cause::Kind);
    }
    let Some(at) = index_of(p.holds.items(), &reference.name) else {
        return fail(alloc, p, Cause::Owner(reference.name));
    };
    let value = value_at(alloc, p, v)?;
    let mut holds = replace(&mut p.holds, Items::of(Vec::new(alloc))).into_vec();
    drop(holds.remove(at));
    p.holds = Items::of(holds);
    p.writes.push((reference.name, Entry::Value(value)))?;
    give(p, Answer::Done);
    Ok(())
}

/// What a Get or a GetOr makes of the point.
fn get<B: Body>(alloc: Global, p: &mut Point<B>, spare: bool, k: u32) -> Result<(), Oom>
    requires { k < length p.old.references }
    ensures { let asked = history.reference p.old k in
        IfOk result (λ _. p.new ≡ history.after_get spare asked.sort asked.name p.old) }
{
    let Reference { sort, name } = copy_reference(alloc, &p.references.items()[k as usize])?;
    match sort {
        Sort::Task => fail(alloc, p, Cause::Kind),
        Sort::Promise => {
            wait_for(p, name, spare);
            Ok(())
        }
    }
}

/// What a Join or a JoinOr makes of the point.
fn join<B: Body>(
    alloc: Global,
    p: &mut Point<B>,
    strict: bool,
    spare: bool,
    k: u32,
) -> Result<(), Oom>
    requires { k < length p.old.references }
    ensures { let asked = history.reference p.old k in
        IfOk result (λ _. p.new ≡ history.after_join strict spare asked.sort asked.name p.old) }
{
    let Reference { sort, name } = copy_reference(alloc, &p.references.items()[k as usize])?;
    match sort {
        Sort::Promise => fail(alloc, p, Cause::Kind),
        Sort::Task => {
            if strict && !path_before(&p.name, &name) {
                return fail(alloc, p, Cause::Order(name));
            }
            wait_for(p, name, spare);
            Ok(())
        }
    }
}

/// What the ask makes of the point.
pub fn take<B: Body>(alloc: Global, p: &mut Point<B>, ask: Ask<B>, strict: bool) -> Result<(), Oom>
    requires placed { IsPlaced B.places B.awaits B.left (length p.old.references) ask }
    requires room { length p.old.references < 2 ^ 31 }
    requires few { p.old.made < 2 ^ 31 }
    ensures { IfOk result (λ _. p.new ≡ history.after_ask strict ask p.old) }
{
    match ask {
        Ask::New => make(alloc, p),
        Ask::Fork { body, pass, hand } => fork(alloc, p, body, &pass, &hand),
        Ask::Set { p: k, v } => set(alloc, p, k, v),
        Ask::Get { p: k } => get(alloc, p, false, k),
        Ask::Join { t: k } => join(alloc, p, strict, false, k),
        Ask::GetOr { p: k } => get(alloc, p, true, k),
        Ask::JoinOr { t: k } => join(alloc, p, strict, true, k),
        Ask::Emit(i) => {
            p.prints.push(i)?;
            give(p, Answer::Done);
            Ok(())
        }
        Ask::End(v) => {
            let value = value_at(alloc, p, v)?;
            let became = value_at(alloc, p, v)?;
            end(alloc, p, Close::Done(value), Entry::Value(became))
        }
        Ask::Fail(trouble) => fail(alloc, p, cause_of(trouble)),
    }
}

/// Why a task fails whose body finds this fault.
fn cause_of(trouble: Trouble) -> Cause
    ensures { result ≡ history.cause_of trouble }
{
    match trouble {
        Trouble::Arith => Cause::Arith,
        Trouble::Kind => Cause::Kind,
        Trouble::Steps => Cause::Steps,
    }
}
