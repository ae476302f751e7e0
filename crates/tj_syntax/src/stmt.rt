//! Statements as they are parsed. Variables and forked tasks are numbers.
use crate::expr::{Expr, RefOf};

/// The statements between two braces.
#[cycle(block)]
#[derive(Drop)]
pub struct Block {
    pub stmts: Vec<Stmt>,
}

/// A statement. Variables are named by their numbers in the task.
#[cycle(block)]
#[derive(Drop)]
pub enum Stmt {
    Let(u32, Rhs),
    Assign(u32, Rhs),
    /// An ask whose answer is dropped.
    Do(Call),
    Print(Expr),
    Set(u32, Expr),
    Return(Expr),
    If(Expr, Block, Option<Block>),
    While(Expr, Block),
}

/// What a variable is given.
#[derive(Drop)]
pub enum Rhs {
    Call(Call),
    Expr(Expr),
}

/// An ask. A forked task is named by its number in the script.
#[derive(Drop)]
pub enum Call {
    New,
    Fork(u32, Vec<Arg>),
    /// With what to compute where the cell is broken.
    Get(RefOf, Option<Expr>),
    /// With what to compute where the cell is broken.
    Join(RefOf, Option<Expr>),
}

/// An argument of a fork.
#[derive(Drop)]
pub enum Arg {
    /// A variable whose promise is handed to the child.
    Own(u32),
    Expr(Expr),
}
