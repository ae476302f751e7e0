//! The law of what is told as a reason: it is what fails first. It speaks of the definitions alone.
ghost use Rattle.tj_reasons.specs.FirstFaults.{ReasonsAreFirst};

/// What is told as a reason is what fails first.
pub fn reasons_are_first()
    // Law: the reason that is told for an expression, or for a statement, is that of its first part,
    // in the order in which the language tests them, that fails or isn't what is wanted there, by the
    // values that the language gives to the parts before it: division only where the right side of a `/` or `%` is
    // 0; overflow only where it isn't and the exact result, or the quotient of a `%`, is past 64
    // bits; and as met the value that this part has, which is a number where a cell is wanted, a
    // cell where a number is, or a cell of the other sort.
    ensures { ReasonsAreFirst }
{}
