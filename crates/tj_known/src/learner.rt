//! A task whose acts are worked off one after the other, with what it knows by then.
ghost use Rattle.std.specs.Prelude.{◌≡◌, ◌||◌, ℕ, nat_eq, true, false, IfOk};
ghost use Rattle.tj_known.specs.Inner.Learners as spec;
ghost use Rattle.tj_known.specs.Inner.Learners.{has_index};

use crate::step::Step;
use std::alloc::Global;
use std::cmp::min;
use tj_base::Oom;

/// A task of the lines.
#[derive(Drop)]
pub struct Learner {
    /// Its acts.
    pub steps: Vec<Step>,
    /// It is the root, or its fork was worked off.
    pub begun: bool,
    /// For each act that was worked off, whether it is a join of a task that was known.
    pub marks: Vec<bool>,
    /// For each index whether the task there is known. Those behind its end are not.
    pub knows: Vec<bool>,
}

impl Learner {
    /// The next act of a task that has begun.
    pub fn next(&self) -> Option<Step>
        ensures { result ≡ spec.next_of self.now }
    {
        let at = self.marks.len();
        if self.begun && at < self.steps.len() {
            Some(self.steps[at])
        } else {
            None
        }
    }

    /// Whether all acts of the task are worked off.
    pub fn is_done(&self) -> bool
        ensures { result ≡ spec.is_done self.now }
    {
        self.begun && self.marks.len() == self.steps.len()
    }

    /// Whether the task with this index is known.
    pub fn has(&self, index: usize) -> bool
        ensures { result ≡ has_index self.now.knows.items index }
    {
        match self.knows.get(index) {
            Some(known) => *known,
            None => false,
        }
    }

    /// The task begins, and knows this.
    pub fn begin(&mut self, inherited: Vec<bool>)
        ensures { self.new ≡ record self.old { begun = true; knows = inherited } }
    {
        self.begun = true;
        self.knows = inherited;
    }

    /// The next act is worked off, a fork of the task with this index. The row is what that one
    /// inherits: what was known before.
    pub fn fork(&mut self, alloc: Global, child: usize) -> Result<Vec<bool>, Oom>
        ensures act { IfOk result (λ _. spec.IsWorkedOff self.old self.new false) }
        ensures row { IfOk result (λ _. (i : ℕ) → has_index self.new.knows.items i
            ≡ (nat_eq i child || has_index self.old.knows.items i)) }
        ensures inherited { IfOk result (λ row. row.items ≡ self.old.knows.items) }
    {
        let inherited = Vec::from_slice(alloc, self.knows.as_slice())?;
        add_index(&mut self.knows, child)?;
        self.marks.push(false)?;
        Ok(inherited)
    }

    /// The next act is worked off, a join that tells nothing.
    pub fn join(&mut self, known: bool) -> Result<(), Oom>
        ensures act { IfOk result (λ _. spec.IsWorkedOff self.old self.new known) }
        ensures row { IfOk result (λ _. self.new.knows.items ≡ self.old.knows.items) }
    {
        self.marks.push(known)?;
        Ok(())
    }

    /// The next act is worked off, a join of a task that was known, which tells this.
    pub fn learn(&mut self, told: &[bool]) -> Result<(), Oom>
        ensures act { IfOk result (λ _. spec.IsWorkedOff self.old self.new true) }
        ensures row { IfOk result (λ _. (i : ℕ) → has_index self.new.knows.items i
            ≡ (has_index self.old.knows.items i || has_index told.now i)) }
    {
        add_known(&mut self.knows, told)?;
        self.marks.push(true)?;
        Ok(())
    }
}

/// Adds an index to a row.
fn add_index(row: &mut Vec<bool>, index: usize) -> Result<(), Oom>
    ensures { IfOk result (λ _. (i : ℕ) → has_index row.new.items i
        ≡ (nat_eq i index || has_index row.old.items i)) }
{
    if index < row.len() {
        row[index] = true;
        return Ok(());
    }
    row.resize(index, false)?;
    row.push(true)?;
    Ok(())
}

/// Adds what is told to a row.
// A row is truth values, at most 16 MB for 4,096 tasks; bits would need shifts.
fn add_known(row: &mut Vec<bool>, told: &[bool]) -> Result<(), Oom>
    ensures { IfOk result (λ _. (i : ℕ) → has_index row.new.items i
        ≡ (has_index row.old.items i || has_index told.now i)) }
{
    let both = min(row.len(), told.len());
    for index in 0..both {
        let known = row[index] | told[index];
        row[index] = known;
    }
    row.extend_from_slice(&told[both..])?;
    Ok(())
}
