//! Laws of objects. They speak of the definitions alone.
ghost use Rattle.tj_json.specs.LineLaws.{ObjectsTellEach};

/// Each finding of a forest has an object of its own: one line with its kind, its level and its names in order.
pub fn objects_tell_each_finding()
    // Law: the objects of a forest are those of its findings, one behind the other: causes, and behind
    // each what follows from it. Each object is made of one finding and its level alone, and is one
    // line, if no name of a task or a variable has a line feed. It begins with the kind of the finding and
    // with this level: 0 of a cause, 1 of what follows from it. It has the names of the tasks and the cells
    // of which the finding tells, each whole and behind the word for what it is, in this order: of a wait
    // the task, the cell, and its owner; of a cycle so for one member after the other; of a failure the
    // task, the cause, and the cell; of a promise that is owed this and the task; of an echo the task, the
    // cell, and the task where it began. `null` stands for what there isn't. Of names
    // among arguments, and of where a promise went, nothing is said.
    ensures { ObjectsTellEach }
{}
