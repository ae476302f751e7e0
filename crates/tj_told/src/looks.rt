//! How often an observer looks, and for what.
use tj_base::Name;

/// How often an observer looks at the cells while a run goes on.
#[derive(Clone, Copy)]
pub enum Looks {
    /// It sleeps for so many milliseconds between two looks; by 0 it looks without a pause.
    Every(u32),
    /// Nobody looks: each cycle is told at rest.
    Never,
}

/// How often an observer looks, and the name of the cell whose value it tells, if there is one.
#[derive(Drop)]
pub(crate) struct Watch {
    pub(crate) looks: Looks,
    pub(crate) wanted: Option<Name>,
}
