//! Why a task failed by `arith` or `kind`.

/// What was met of a value.
#[derive(Clone, Copy)]
pub enum Met {
    /// This number.
    Number(i64),
    /// The cell to which the variable with this number refers.
    Variable(u32),
    /// The task itself.
    Itself,
}

/// What was wanted in its place.
#[derive(Clone, Copy)]
pub enum Wanted {
    Number,
    Promise,
    Task,
}

/// Why a task failed.
#[derive(Clone, Copy)]
pub enum Reason {
    /// By division by zero.
    Division,
    /// Since a result was none of 64 bits.
    Overflow,
    /// It met this where something else was wanted.
    Met(Met, Wanted),
}
