//! What became of a cell at rest, by its name.
ghost use Rattle.std.specs.Prelude.{◌≡◌, ◌↔◌, ◌<◌, List, length, IfOk, IsTrue};
ghost use Rattle.tj_body.specs.Programs.{program_of};
ghost use Rattle.tj_body.specs.declared.point.Reference.{Reference};
ghost use Rattle.tj_report.specs.Inner.CellNamesBy.{name_by, names_by};
ghost use Rattle.tj_report.specs.Inner.NamedCells.{BecameHere, IsCellNamed, without_value};
ghost use Rattle.tj_report.specs.Inner.ToldRecords.{IsFillBelow, shown_by};
ghost use Rattle.tj_report.specs.NamedValues.{IsOfName};
ghost use Rattle.tj_words.specs.AtRest.ClosedCells.{AreNamed};
ghost use Rattle.tj_words.specs.AtRest.RestMeaning.{HaveMeaning};
ghost use Rattle.tj_words.specs.AtRest.RestValues.{AreValuesOfMeaning};

use crate::climbed_names::name_at;
use std::alloc::Global;
use tj_base::{CellId, Name, Oom, Shown};
use tj_body::Body;
use tj_words::{Fill, RestWords};

/// What became of a promise, or of the result of a task.
#[derive(Debug, PartialEq, Eq, Drop)]
pub enum Became {
    /// Nothing: nobody has set the promise, or the task has no result.
    Open,
    /// Its owner ended without setting it, or the task failed.
    Broken,
    Value(Shown),
}

/// What became of the cell with this name: of the k-th thing that a task made its name is that of
/// the task and k. None where the run has no such cell.
pub fn value_named<B: Body>(
    alloc: Global,
    rest: &RestWords<B>,
    name: &Name,
) -> Result<Option<Became>, Oom>
    requires meaning { HaveMeaning (program_of B.places B.awaits B.left B.asks B.then
        rest.now.strict rest.now.root) rest.now.limit rest.now.cells rest.now.records }
    requires values { AreValuesOfMeaning (program_of B.places B.awaits B.left B.asks B.then
        rest.now.strict rest.now.root) rest.now.limit rest.now.cells rest.now.words }
    // It is what the meaning has for the cell with this name, and None comes exactly where the
    // meaning has no such cell.
    ensures { let p = program_of B.places B.awaits B.left B.asks B.then rest.now.strict
        rest.now.root in IfOk result (IsOfName p rest.now.limit name.now) }
{
    let Some(c) = cell_named(rest, name) else {
        return Ok(None);
    };
    Ok(Some(became_at(alloc, rest, c)?))
}

/// The cell with this name.
fn cell_named<B: Body>(rest: &RestWords<B>, name: &Name) -> Option<CellId>
    requires { (born : List Reference) × AreNamed rest.now.cells born }
    ensures { IsCellNamed rest.now.cells name.now result }
{
    for c in 0..rest.drawn() {
        if is_named(rest, CellId(c), name) {
            return Some(CellId(c));
        }
    }
    None
}

/// Whether the cell has this name: compared from the last number on, up to the first that differs.
fn is_named<B: Body>(rest: &RestWords<B>, c: CellId, name: &Name) -> bool
    requires there { c.0 < length rest.now.cells }
    requires named { (born : List Reference) × AreNamed rest.now.cells born }
    ensures { IsTrue result ↔ (name_by rest.now.cells c.0 ≡ name.now) }
{
    let mut at = c.0;
    let mut left = name;
    while at > 0 {
        let cell = rest.cell(CellId(at));
        let Some((last, before)) = left.split_last() else {
            return false;
        };
        if last != cell.kid {
            return false;
        }
        left = before;
        at = cell.parent.0;
    }
    left.depth() == 0
}

/// What became of a cell.
fn became_at<B: Body>(alloc: Global, rest: &RestWords<B>, c: CellId) -> Result<Became, Oom>
    requires there { c.0 < length rest.now.cells }
    requires named { (born : List Reference) × AreNamed rest.now.cells born }
    ensures { IfOk result (BecameHere rest.now.cells rest.now.words c.0) }
{
    let Some(fill) = rest.value(c) else {
        return Ok(without_value(rest.cell(c).tag));
    };
    Ok(Became::Value(shown_at(alloc, rest, fill)?))
}

/// What became of a cell without a value, by its TAG.
fn without_value(tag: u64) -> Became
    ensures { result ≡ without_value tag }
{
    if tag == 0 {
        Became::Open
    } else {
        Became::Broken
    }
}

/// The value with which a cell is filled.
fn shown_at<B: Body>(alloc: Global, rest: &RestWords<B>, fill: Fill) -> Result<Shown, Oom>
    requires below { IsFillBelow (length rest.now.cells) fill }
    requires named { (born : List Reference) × AreNamed rest.now.cells born }
    ensures { IfOk result (λ v. v ≡ shown_by (names_by rest.now.cells) fill) }
{
    match fill {
        Fill::Num(i) => Ok(Shown::Num(i)),
        Fill::Promise(c) | Fill::Task(c) => Ok(Shown::Ref(name_at(alloc, rest, c)?)),
    }
}
