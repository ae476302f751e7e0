//! The code of a task as straight code: what it asks next is a function of the task and of all that it
//! has been told so far.
ghost use Rattle.std.specs.Prelude.{List, ◌≡◌, IfOk};
ghost use Rattle.tj_task.specs.declared.plan.Do.TheVariants as does;
ghost use Rattle.tj_task.specs.declared.plan.Do.{Do};
ghost use Rattle.tj_task.specs.declared.turn.Told.{Told};

use crate::handles::{Child, Promise, places};
use crate::turn::Told;
use std::alloc::Global;
use tj_base::{Oom, Pay, PlaceList, Trouble};

/// What a task asks.
#[derive(Drop)]
pub enum Do<T> {
    /// Makes a promise, which the task owns.
    New,
    /// Starts a child that is passed nothing.
    Fork(T),
    /// Starts a child that is passed these places and handed the promises at those.
    ForkWith {
        child: T,
        pass: PlaceList,
        hand: PlaceList,
    },
    /// Sets a promise that the task owns.
    Set(Promise, Pay),
    /// Waits for a promise.
    Get(Promise),
    /// Waits for a task's result.
    Join(Child),
    /// Waits for a promise, and is told `Lost` where it is broken.
    GetOr(Promise),
    /// Waits for a task's result, and is told `Lost` where it is broken.
    JoinOr(Child),
    /// Prints a number.
    Emit(i64),
    /// Ends well, with this result.
    End(Pay),
    /// Fails.
    Fail(Trouble),
}

/// A task's code. What it asks is a function of the task and of what it has been told.
pub trait Plan: Sized + Send + Drop {
    /// That function.
    ghost asks: { Self → List Told → Do Self };

    /// Computes it.
    fn next(&self, alloc: Global, log: &[Told]) -> Result<Do<Self>, Oom>
        // What a plan asks is the function `asks` of the plan and of all that its task has been
        // told.
        ensures { IfOk result (λ d. d ≡ asks self.now log.now) };

    /// An equal task.
    fn twin(&self, alloc: Global) -> Result<Self, Oom>
        // The twin equals the plan.
        ensures { IfOk result (λ twin. twin ≡ self.now) };
}

/// Starts a child that is passed these places and handed the promises at those.
pub fn fork_with<T: Drop>(alloc: Global, child: T, pass: &[u32], hand: &[u32]) -> Result<Do<T>, Oom>
    // It is a fork of this child, which is passed and handed these places.
    ensures { IfOk result (λ d. d ≡ does.ForkWith child pass.now hand.now) }
{
    Ok(Do::ForkWith {
        child,
        pass: places(alloc, pass)?,
        hand: places(alloc, hand)?,
    })
}
