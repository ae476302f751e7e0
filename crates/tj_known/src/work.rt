//! All acts are worked off in sweeps. In a sweep each task goes on as far as it can: it stops at an
//! answered join of a task that it knows while that task has acts left, since it learns what that
//! one knows after its last act. A join is answered only after the joined task ended; so while acts
//! are left, some task can go on. Each second sweep goes back from the last task: forks begin tasks
//! that stand behind the one that forks, and joins often wait for those.
ghost use Rattle.std.specs.Prelude.{◌≡◌, ◌<◌, ◌≤◌, ◌&&◌, length, IfOk, IsTrue, IsFalse};
ghost use Rattle.tj_mean.specs.ActLines.{AreActLines, names_of};
ghost use Rattle.tj_mean.specs.Outcomes.{Ascend};
ghost use Rattle.tj_known.specs.Inner.Learners as spec;
ghost use Rattle.tj_known.specs.Inner.Learners.{AreDone, IsNew, IsUnderWay};
ghost use Rattle.tj_known.specs.Inner.Monitors.{HasTried, IsAtWork};
ghost use Rattle.tj_known.specs.Inner.Steps.{AreThere};
ghost use Rattle.tj_known.specs.declared.step.Step.TheVariants as step;

use crate::learner::Learner;
use crate::step::{Step, steps_of};
use std::alloc::Global;
use tj_base::Oom;
use tj_mean::ActLine;

/// The lines, with how far the acts of their tasks are worked off.
#[derive(Drop)]
pub struct Monitor<'l> {
    alloc: Global,
    lines: &'l [ActLine],
    pub learners: Vec<Learner>,
}

impl<'l> Monitor<'l> {
    /// Nothing is worked off, and the root alone has begun.
    pub fn new(alloc: Global, lines: &'l [ActLine]) -> Result<Monitor<'l>, Oom>
        requires { AreActLines lines.now }
        ensures lines { IfOk result (λ m. m.lines.now ≡ lines.now) }
        ensures work { IfOk result IsAtWork }
    {
        let mut learners = Vec::new(alloc);
        for (index, line) in lines.iter().enumerate() {
            learners.push(new_learner(alloc, lines, index, line)?)?;
        }
        Ok(Monitor {
            alloc,
            lines,
            learners,
        })
    }

    /// Works off all acts.
    pub fn work_off(&mut self) -> Result<(), Oom>
        requires work { IsAtWork self.old }
        ensures under_way { IfOk result (λ _.
            IsUnderWay self.old.lines.now self.new.learners.items) }
        ensures done { IfOk result (λ _. AreDone self.new.learners.items) }
    {
        while self.sweep()? {
            self.sweep_back()?;
        }
        Ok(())
    }

    /// Each task goes on as far as it can. False: none could.
    fn sweep(&mut self) -> Result<bool, Oom>
        requires work { IsAtWork self.old }
        ensures lines { IfOk result (λ _. self.new.lines.now ≡ self.old.lines.now) }
        ensures sweep { IfOk result (λ moved. spec.IsSweep self.old.lines.now
            self.old.learners.items self.new.learners.items moved) }
    {
        let mut moved = false;
        for index in 0..self.learners.len() {
            let went_on = self.go_on(index)?;
            moved = moved || went_on;
        }
        Ok(moved)
    }

    /// Each task goes on as far as it can, the last one first.
    fn sweep_back(&mut self) -> Result<(), Oom>
        requires work { IsAtWork self.old }
        ensures lines { IfOk result (λ _. self.new.lines.now ≡ self.old.lines.now) }
        ensures under_way { IfOk result (λ _.
            IsUnderWay self.old.lines.now self.new.learners.items) }
        ensures fewer { IfOk result (λ _.
            spec.acts_left self.new.learners.items ≤ spec.acts_left self.old.learners.items) }
    {
        let mut left = self.learners.len();
        while left > 0 {
            left -= 1;
            self.go_on(left)?;
        }
        Ok(())
    }

    /// The task with this index goes on as far as it can. False: it could not.
    fn go_on(&mut self, index: usize) -> Result<bool, Oom>
        requires work { IsAtWork self.old }
        requires index { index < length self.old.learners.items }
        ensures lines { IfOk result (λ _. self.new.lines.now ≡ self.old.lines.now) }
        ensures acts { IfOk result (λ moved. spec.IsAdvanced self.old.lines.now index
            self.old.learners.items self.new.learners.items moved) }
    {
        let mut moved = false;
        while self.act(index)? {
            moved = true;
        }
        Ok(moved)
    }

    /// Works off the next act of the task with this index. False: it can't go on.
    fn act(&mut self, index: usize) -> Result<bool, Oom>
        requires work { IsAtWork self.old }
        requires index { index < length self.old.learners.items }
        ensures { IfOk result (HasTried index self.old self.new) }
    {
        match self.learners[index].next() {
            None => Ok(false),
            Some(step) => self.take_step(index, step),
        }
    }

    /// Works off this act, which is the task's next. False: it can't go on.
    fn take_step(&mut self, index: usize, step: Step) -> Result<bool, Oom>
        requires work { IsAtWork self.old }
        requires next { spec.NextAt self.old.learners.items index step }
        ensures { IfOk result (HasTried index self.old self.new) }
    {
        match step {
            Step::Fork(child) => self.fork(index, child),
            Step::Join(joined, answered) => self.join(index, joined, answered),
        }
    }

    /// The task forks a child, which inherits what it knew before. True: this can always be done.
    fn fork(&mut self, index: usize, child: usize) -> Result<bool, Oom>
        requires work { IsAtWork self.old }
        requires next { spec.NextAt self.old.learners.items index (step.Fork child) }
        ensures { IfOk result (HasTried index self.old self.new) }
    {
        let alloc = self.alloc;
        let inherited = self.learners[index].fork(alloc, child)?;
        self.learners[child].begin(inherited);
        Ok(true)
    }

    /// The task joins another. False: it knew that one, the join is answered, and that one has
    /// acts left.
    fn join(&mut self, index: usize, joined: usize, answered: bool) -> Result<bool, Oom>
        requires work { IsAtWork self.old }
        requires next { spec.NextAt self.old.learners.items index (step.Join joined answered) }
        ensures { IfOk result (HasTried index self.old self.new) }
    {
        if self.tells(index, joined, answered) {
            self.join_known(index, joined, answered)
        } else {
            self.join_plain(index, joined, answered)
        }
    }

    /// Whether the next act, a join, tells something: its task knew the joined one, and it is
    /// answered.
    fn tells(&self, index: usize, joined: usize, answered: bool) -> bool
        requires work { IsAtWork self.now }
        requires next { spec.NextAt self.now.learners.items index (step.Join joined answered) }
        ensures { result ≡ (spec.knows_at self.now.learners.items index joined && answered) }
    {
        self.knows(index, joined, answered) && answered
    }

    /// Whether the task knows the one that it joins next.
    fn knows(&self, index: usize, joined: usize, answered: bool) -> bool
        requires work { IsAtWork self.now }
        requires next { spec.NextAt self.now.learners.items index (step.Join joined answered) }
        ensures { result ≡ spec.knows_at self.now.learners.items index joined }
    {
        self.learners[index].has(joined)
    }

    /// The task joins one that it knew and that answers, and learns what that one knows after its
    /// last act. False: that one has acts left.
    fn join_known(&mut self, index: usize, joined: usize, answered: bool) -> Result<bool, Oom>
        requires work { IsAtWork self.old }
        requires next { spec.NextAt self.old.learners.items index (step.Join joined answered) }
        requires tells { IsTrue (spec.knows_at self.old.learners.items index joined && answered) }
        ensures { IfOk result (HasTried index self.old self.new) }
    {
        if !self.learners[joined].is_done() {
            return Ok(false);
        }
        let told = Vec::from_slice(self.alloc, self.learners[joined].knows.as_slice())?;
        self.learners[index].learn(told.as_slice())?;
        Ok(true)
    }

    /// The task joins one that tells it nothing, since it didn't know it or isn't answered.
    fn join_plain(&mut self, index: usize, joined: usize, answered: bool) -> Result<bool, Oom>
        requires work { IsAtWork self.old }
        requires next { spec.NextAt self.old.learners.items index (step.Join joined answered) }
        requires tells_nothing { IsFalse (spec.knows_at self.old.learners.items index joined && answered) }
        ensures { IfOk result (HasTried index self.old self.new) }
    {
        let known = self.knows(index, joined, answered);
        self.learners[index].join(known)?;
        Ok(true)
    }
}

/// The task of a line, of which nothing is worked off.
fn new_learner(
    alloc: Global,
    lines: &[ActLine],
    index: usize,
    line: &ActLine,
) -> Result<Learner, Oom>
    requires in_order { Ascend (names_of lines.now) }
    requires there { AreThere lines.now line.now.acts }
    ensures { IfOk result (IsNew lines.now line.now) }
{
    Ok(Learner {
        steps: steps_of(alloc, lines, index, line.acts.items())?,
        begun: line.name.depth() == 0,
        marks: Vec::new(alloc),
        knows: Vec::new(alloc),
    })
}
