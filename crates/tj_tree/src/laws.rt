//! Laws of the fork order and of its tree, each the contract of a function that does nothing.
ghost use Rattle.tj_tree.specs.Laws.{LaterForksKeepOrder, NoneIsBeforeItself, OrderIsTransitive, OrderIsTotal};
ghost use Rattle.tj_tree.specs.Laws.{OrderIsThatOfNames, NamesTellOrder, LinksLeadToTasks};

/// Later forks never change the order of two tasks that are there.
pub fn later_forks_keep_order()
    // Law: later forks never change the order of two tasks that are there.
    ensures { LaterForksKeepOrder }
{}

/// No task is before itself.
pub fn none_is_before_itself()
    // Law: no task is before itself.
    ensures { NoneIsBeforeItself }
{}

/// What is before a task is before all that the task is before.
pub fn order_is_transitive()
    // Law: what is before a task is before all that the task is before.
    ensures { OrderIsTransitive }
{}

/// Of two tasks one is before the other.
pub fn order_is_total()
    // Law: of two tasks one is before the other.
    ensures { OrderIsTotal }
{}

/// A task is before another exactly where its name is before the other's name.
pub fn order_is_that_of_names()
    // Law: a task is before another exactly where its name is before the other's name.
    ensures { OrderIsThatOfNames }
{}

/// A task is before exactly its descendants and the tasks in the subtree of a sibling that was
/// forked earlier than it, or than one of its ancestors.
pub fn names_tell_order()
    // Law: a name is before exactly those of its descendants and those in the subtree of a sibling
    // forked earlier than it or than one of its ancestors.
    ensures { NamesTellOrder }
{}

/// The parent and the jump of a task are tasks.
pub fn links_lead_to_tasks()
    // Law: the parent and the jump of a task are tasks.
    ensures { LinksLeadToTasks }
{}
