//! Values that tasks pass to one another.
use crate::name::Name;

/// A value as a body gives it: a number, or the place of a reference in its task's list.
#[derive(Clone, Copy, Debug, PartialEq, Eq)]
pub enum Pay {
    Num(i64),
    Ref(u32),
}

/// A value as a report shows it: a number, or the name of a cell.
#[derive(Debug, PartialEq, Eq, Drop)]
pub enum Shown {
    Num(i64),
    Ref(Name),
}
