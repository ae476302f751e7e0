//! Who owned each cell where the tasks stopped: the numbers of their lines, by the cells. The lines
//! are entered from the last to the first, so that the first one of a cell stays.
ghost use Rattle.std.specs.Prelude.{ℕ, ◌≡◌, cond, Some, IfOk, map};
ghost use Rattle.tj_base.specs.ForkOrder.{Name};
ghost use Rattle.tj_body.specs.Names.{has, same};
ghost use Rattle.tj_mean.specs.Outcomes.{Ascend};
ghost use Rattle.tj_trace.specs.Lookups.{kept_by};
ghost use Rattle.tj_trace.specs.Traces.{names_of};
ghost use Rattle.tj_forest.specs.Inner.Numbers.{AreOwnersFrom, AreSettersFrom, IsSearchable, number_in};
ghost use Rattle.tj_findings.specs.Went.{sets_by};

use crate::lookups::{Lookups, Numbers};
use std::alloc::Global;
use tj_base::{Name, Oom};
use tj_mean::{Ending, NameMap};
use tj_trace::{SetNote, TraceLine};

/// The lines with what finds them.
pub fn lookups_of(alloc: Global, lines: &[TraceLine]) -> Result<Lookups<'_>, Oom>
    requires { Ascend (names_of lines.now) }
    ensures lines { IfOk result (λ lookups. lookups.lines.now ≡ lines.now) }
    ensures found { IfOk result IsSearchable }
{
    let owners = owners_of(alloc, lines)?;
    let setters = setters_of(alloc, lines)?;
    Ok(Lookups {
        lines,
        owners,
        setters,
    })
}

/// The owners of all cells.
fn owners_of(alloc: Global, lines: &[TraceLine]) -> Result<Numbers, Oom>
    ensures { IfOk result (AreOwnersFrom lines.now 0) }
{
    let mut owners = NameMap::new(alloc);
    let mut number = lines.len();
    while number > 0 {
        number -= 1;
        enter_line(alloc, &mut owners, number, &lines[number])?;
    }
    Ok(owners)
}

/// The setters of all promises.
fn setters_of(alloc: Global, lines: &[TraceLine]) -> Result<Numbers, Oom>
    ensures { IfOk result (AreSettersFrom lines.now 0) }
{
    let mut setters = NameMap::new(alloc);
    let mut number = lines.len();
    while number > 0 {
        number -= 1;
        enter_setter(alloc, &mut setters, number, &lines[number])?;
    }
    Ok(setters)
}

/// The line has this number: its task set the promises that it set.
fn enter_setter(
    alloc: Global,
    numbers: &mut Numbers,
    number: usize,
    line: &TraceLine,
) -> Result<(), Oom>
    ensures { IfOk result (λ _. (q : Name) → number_in numbers.new q
        ≡ cond (has q (sets_by line.now)) (Some number) (number_in numbers.old q)) }
{
    enter_sets(alloc, numbers, number, line.sets.items())
}

/// The promises that were set by these notes have this number.
fn enter_sets(
    alloc: Global,
    numbers: &mut Numbers,
    number: usize,
    sets: &[SetNote],
) -> Result<(), Oom>
    ensures { IfOk result (λ _. (q : Name) → number_in numbers.new q
        ≡ cond (has q (map (λ n. n.promise) sets.now)) (Some number) (number_in numbers.old q)) }
{
    for set in sets {
        enter(alloc, numbers, number, &set.promise)?;
    }
    Ok(())
}

/// The line has this number: its task owned the cells that it owned.
fn enter_line(
    alloc: Global,
    numbers: &mut Numbers,
    number: usize,
    line: &TraceLine,
) -> Result<(), Oom>
    ensures { IfOk result (λ _. (q : Name) → number_in numbers.new q
        ≡ cond (has q (kept_by line.now)) (Some number) (number_in numbers.old q)) }
{
    match &line.line.ending {
        Ending::Waits(_) => {
            enter_all(alloc, numbers, number, line.holds.items())?;
            enter(alloc, numbers, number, &line.line.name)
        }
        Ending::Done(_) | Ending::Failed(_) => {
            enter_all(alloc, numbers, number, line.line.owes.items())
        }
    }
}

/// These cells have this number.
fn enter_all(alloc: Global, numbers: &mut Numbers, number: usize, cells: &[Name]) -> Result<(), Oom>
    ensures { IfOk result (λ _. (q : Name) → number_in numbers.new q
        ≡ cond (has q cells.now) (Some number) (number_in numbers.old q)) }
{
    for cell in cells {
        enter(alloc, numbers, number, cell)?;
    }
    Ok(())
}

/// This cell has this number.
pub fn enter(alloc: Global, numbers: &mut Numbers, number: usize, cell: &Name) -> Result<(), Oom>
    ensures { IfOk result (λ _. (q : Name) → number_in numbers.new q
        ≡ cond (same q cell.now) (Some number) (number_in numbers.old q)) }
{
    let copy = cell.copy(alloc)?;
    numbers.put(copy, number)
}
