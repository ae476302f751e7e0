//! Scripts and tasks as they are parsed.
use crate::stmt::Block;
use tj_lex::Word;

/// The most levels of nesting.
pub(crate) const MAX_LEVELS: u32 = 64;

/// The most tasks of a script.
pub(crate) const MAX_TASKS: usize = 1024;

/// The most variables of a task.
pub(crate) const MAX_VARS: usize = 256;

/// The tasks of a script in the order of the text.
#[derive(Drop)]
pub struct Script {
    pub tasks: Vec<Decl>,
}

/// A task with its variables: its parameters first, then the names of its `let` statements.
#[derive(Drop)]
pub struct Decl {
    pub name: Word,
    pub params: u32,
    pub vars: Vec<Word>,
    pub body: Block,
}
