//! What finds the line of a trace by the name of a task or of a cell, the members of cycles, and the
//! cause of a finding.
use tj_mean::{LinkList, NameMap};
use tj_trace::TraceLine;

/// Numbers by names.
pub type Numbers = NameMap<usize>;

/// The lines of a trace, in name order, and for each cell the number of the line of the task that
/// owned it where it stopped.
#[derive(Drop)]
pub struct Lookups<'t> {
    pub lines: &'t [TraceLine],
    pub owners: Numbers,
    /// For each promise the number of the line of the task that set it.
    pub setters: Numbers,
}

/// Cycles, and a number for each of their members.
#[derive(Drop)]
pub struct Members<'t> {
    pub cycles: &'t [LinkList],
    pub numbers: Numbers,
}

/// What finds the cause of a finding: a number for each name of a cause, and by the numbers of lines
/// where waits lead, where the first echo of a chain stands, and from where echoes came.
#[derive(Drop)]
pub struct Guide<'t> {
    pub lookups: Lookups<'t>,
    pub members: Members<'t>,
    pub causes: Numbers,
    pub ahead: Vec<usize>,
    /// The step back from each echo.
    pub steps: Vec<Option<usize>>,
    pub to_echoes: Vec<usize>,
    pub back: Vec<usize>,
}
