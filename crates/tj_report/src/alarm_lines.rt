//! The lines of cycles, from the words and records at rest.
ghost use Rattle.std.specs.Prelude.{◌≡◌, ◌++◌, ◌<◌, ℕ, List, codes, length, IfOk};
ghost use Rattle.std.specs.List.{All, join_by};
ghost use Rattle.tj_body.specs.declared.point.Reference.{Reference};
ghost use Rattle.tj_report.specs.Inner.AwaitedCells.{AreRecordsBelow, link_by};
ghost use Rattle.tj_report.specs.Inner.RestAlarms.{AreAlarmsBy, link_in};
ghost use Rattle.tj_mean.specs.ReportTexts.{link_text};
ghost use Rattle.tj_words.specs.AtRest.ClosedCells.{AreNamed};

use crate::awaited_cells::{awaited_at, next_by, ranks_of};
use crate::climbed_names::add_cell;
use std::alloc::Global;
use tj_base::{CellId, Oom};
use tj_body::Body;
use tj_mean::cycles_by;
use tj_words::RestWords;

/// The tasks of these cells, which stand in name order, with what tells of them.
#[derive(Drop)]
struct Tasks<'t, B: Body> {
    alloc: Global,
    rest: &'t RestWords<B>,
    order: &'t [u32],
}

/// Adds a line for each cycle of the tasks of these cells, which stand in name order.
pub fn add_alarms<B: Body>(
    alloc: Global,
    rest: &RestWords<B>,
    order: &[u32],
    text: &mut Vec<u8>,
) -> Result<(), Oom>
    requires there { All (λ c. c < length rest.now.cells) order.now }
    requires below { AreRecordsBelow rest.now.cells rest.now.records }
    requires named { (born : List Reference) × AreNamed rest.now.cells born }
    ensures { IfOk result (λ _. AreAlarmsBy rest.now.cells rest.now.records order.now
        text.old.items text.new.items) }
{
    let ranks = ranks_of(alloc, order, rest.drawn() as usize)?;
    let next = next_by(alloc, rest, order, ranks.as_slice())?;
    let cycles = cycles_by(alloc, next.as_slice())?;
    let tasks = Tasks { alloc, rest, order };
    for cycle in cycles.items() {
        text.extend_from_slice(b"alarm ")?;
        add_links(&tasks, cycle.items(), text)?;
        text.push(b'\n')?;
    }
    Ok(())
}

/// Adds the parts of a cycle.
fn add_links<B: Body>(tasks: &Tasks<B>, cycle: &[usize], text: &mut Vec<u8>) -> Result<(), Oom>
    requires there { All (λ c. c < length tasks.now.rest.now.cells) tasks.now.order.now }
    requires below { AreRecordsBelow tasks.now.rest.now.cells tasks.now.rest.now.records }
    requires named { (born : List Reference) × AreNamed tasks.now.rest.now.cells born }
    requires inside { All (λ p. p < length tasks.now.order.now) cycle.now }
    ensures { let rest = tasks.now.rest.now in IfOk result (λ _. text.new.items ≡ text.old.items
        ++ join_by (λ p. link_text (link_in rest.cells rest.records tasks.now.order.now p))
        (codes ", ") cycle.now) }
{
    let [first, others @ ..] = cycle else {
        return Ok(());
    };
    add_link(tasks, b"", tasks.order[*first], text)?;
    for p in others {
        add_link(tasks, b", ", tasks.order[*p], text)?;
    }
    Ok(())
}

/// Adds these bytes, the task of a cell and the cell for which it waits.
fn add_link<B: Body>(tasks: &Tasks<B>, before: &[u8], c: u32, text: &mut Vec<u8>) -> Result<(), Oom>
    requires there { c < length tasks.now.rest.now.cells }
    requires below { AreRecordsBelow tasks.now.rest.now.cells tasks.now.rest.now.records }
    requires named { (born : List Reference) × AreNamed tasks.now.rest.now.cells born }
    ensures { let rest = tasks.now.rest.now in IfOk result (λ _. text.new.items ≡ text.old.items
        ++ (before.now ++ link_text (link_by rest.cells rest.records c))) }
{
    add_cell(tasks.alloc, before, tasks.rest, CellId(c), text)?;
    let awaited = awaited_at(tasks.rest, c);
    add_cell(tasks.alloc, b" waits for ", tasks.rest, awaited, text)?;
    Ok(())
}
