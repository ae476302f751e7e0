//! The heads of a script's tasks, which are read before the script is, so that a fork finds a task
//! that is declared later.
ghost use Rattle.std.specs.Prelude.{◌≡◌, ◌≤◌, length, map};
ghost use Rattle.tj_syntax.specs.Marks.{most_tasks};

use crate::names::Names;

/// A task's name, the number of its parameters, and how many tokens are left from its name on.
#[derive(Clone, Copy)]
pub(crate) struct Head<'t> {
    pub name: &'t [u8],
    pub params: usize,
    pub left: usize,
}

/// The heads of the tasks, the first of each name, in the order of the text.
#[derive(Drop)]
pub(crate) struct Heads<'t> {
    pub names: Names<'t>,
    pub list: Vec<Head<'t>>,
    ghost named: { names ≡ map (λ h. h.name.now) list.items },
    ghost few: { length names ≤ most_tasks },
}
