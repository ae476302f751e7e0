//! Expressions as they are parsed. Variables are numbers and parentheses are gone.

/// An expression.
#[derive(Drop)]
pub enum Expr {
    Num(i64),
    /// A variable by its number in the task.
    Var(u32),
    Me,
    Neg(Box<Expr>),
    /// At least one pair, with operators that are all of the kind `+ -` or all of the kind `* / %`.
    Chain(Box<Expr>, Vec<(Op, Expr)>),
    Cmp(Rel, Box<Expr>, Box<Expr>),
}

/// The operators of two operands, in the order `+ - * / %`.
#[derive(Clone, Copy)]
pub enum Op {
    Plus,
    Minus,
    Times,
    Over,
    Rest,
}

/// The comparisons, in the order `== != < <= > >=`.
#[derive(Clone, Copy)]
pub enum Rel {
    Eq,
    Ne,
    Lt,
    Le,
    Gt,
    Ge,
}

/// What holds a reference: a variable by its number, or the task itself.
#[derive(Clone, Copy)]
pub enum RefOf {
    Var(u32),
    Me,
}
