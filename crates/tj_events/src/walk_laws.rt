//! What a walk may rely on, in each state that meets the facts: what it reads is there, OTHERS is
//! small, and who settles isn't alone on a cycle.
ghost use Rattle.tj_events.specs.WalkLaws.{PresentCellsAreThere, OwnersAreThere, ReadOwnersAreThere};
ghost use Rattle.tj_events.specs.WalkLaws.{OthersAreFew, SettlersAreNotAlone};

/// A walker's present cell is there.
#[tactic(auto, using(crate::proofs::WalkLaws::present_cells_there))]
pub fn present_cells_are_there()
    // Law: in a state that meets the facts a walker's present cell is there.
    ensures { PresentCellsAreThere }
{}

/// A cell's owner is there.
#[tactic(auto, using(crate::proofs::WalkLaws::owners_there))]
pub fn owners_are_there()
    // Law: in such a state a cell's owner is there.
    ensures { OwnersAreThere }
{}

/// An owner that a walker has just read is there.
#[tactic(auto, using(crate::proofs::WalkLaws::read_owners_there))]
pub fn read_owners_are_there()
    // Law: in such a state an owner that a walker has just read is there.
    ensures { ReadOwnersAreThere }
{}

/// OTHERS is at most the number of cells and of the waits cleared and not yet lowered.
#[tactic(auto, using(crate::proofs::WalkLaws::others_few))]
pub fn others_are_few()
    // Law: in such a state OTHERS is at most the number of cells and of the waits cleared and not
    // yet lowered.
    ensures { OthersAreFew }
{}

/// A cycle through a task whose walk may settle has another member that has alarmed or is on course.
#[tactic(auto, using(crate::proofs::WalkLaws::settlers_not_alone))]
pub fn settlers_are_not_alone()
    // Law: in such a state a cycle through a task whose walk may settle has another member that has
    // alarmed or is on course.
    ensures { SettlersAreNotAlone }
{}
