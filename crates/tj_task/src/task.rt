//! The code of a task that owes no proof of the laws of one ask.
ghost use Rattle.std.specs.Prelude.{◌≡◌, IfOk};
ghost use Rattle.tj_task.specs.declared.turn.Told.{Told};
ghost use Rattle.tj_task.specs.declared.turn.Turn.{Turn};

use crate::turn::{Told, Turn};
use std::alloc::Global;
use tj_base::Oom;

/// A task's code. What it does is a function of the task and of what it is told.
pub trait Task: Sized + Send + Drop {
    /// That function.
    ghost turn: { Self → Told → Turn Self };

    /// Computes it.
    fn step(self, alloc: Global, told: Told) -> Result<Turn<Self>, Oom>
        // What a task does is the function `turn` of the task and of what it is told.
        ensures { IfOk result (λ t. t ≡ turn self told) };

    /// An equal task.
    fn twin(&self, alloc: Global) -> Result<Self, Oom>
        // The twin equals the task.
        ensures { IfOk result (λ twin. twin ≡ self.now) };
}
