//! The names of cells, by PARENT and KID: the root's is the empty one, and each other one's is that
//! of its maker, which comes before it, and its number.
ghost use Rattle.std.specs.Prelude.{◌≡◌, ◌<◌, List, length, map, IfOk};
ghost use Rattle.std.specs.List.{AllByRecursion};
ghost use Rattle.tj_body.specs.Names.{in_order};
ghost use Rattle.tj_body.specs.declared.point.Reference.{Reference};
ghost use Rattle.tj_report.specs.Inner.CellNames.{AreNames, IsBelow, name_in, next_name};
ghost use Rattle.tj_words.specs.AtRest.ClosedCells.{AreNamed};

use std::alloc::Global;
use tj_base::{CellId, Items, Name, NameList, Oom, name_cmp};
use tj_body::{Body, names_and_cells};
use tj_words::{RestCell, RestWords};

/// The names of all cells, in the order of their numbers.
pub fn names_of<B: Body>(alloc: Global, rest: &RestWords<B>) -> Result<Vec<Name>, Oom>
    requires { (born : List Reference) × AreNamed rest.now.cells born }
    ensures { IfOk result (λ names. AreNames rest.now.cells names.items) }
{
    let mut names = Vec::new(alloc);
    for c in 0..rest.drawn() {
        let name = next_name(alloc, names.as_slice(), rest.cell(CellId(c)))?;
        names.push(name)?;
    }
    Ok(names)
}

/// The name of the cell after those of these names.
fn next_name(alloc: Global, names: &[Name], cell: RestCell) -> Result<Name, Oom>
    requires { 0 < length names.now → IsBelow (length names.now) cell.parent }
    ensures { IfOk result (λ name. name ≡ next_name names.now cell) }
{
    if names.is_empty() {
        return Ok(Name::root());
    }
    names[cell.parent.0 as usize].child(alloc, cell.kid)
}

/// The name of a cell.
pub fn name_in(alloc: Global, names: &[Name], c: CellId) -> Result<Name, Oom>
    requires { IsBelow (length names.now) c }
    ensures { IfOk result (λ name. name ≡ name_in names.now c) }
{
    names[c.0 as usize].copy(alloc)
}

/// The names of these cells.
pub fn names_in(alloc: Global, names: &[Name], cells: &[CellId]) -> Result<Vec<Name>, Oom>
    requires { AllByRecursion (IsBelow (length names.now)) cells.now }
    ensures { IfOk result (λ list. list.items ≡ map (name_in names.now) cells.now) }
{
    let mut list = Vec::new(alloc);
    for c in cells {
        list.push(name_in(alloc, names, *c)?)?;
    }
    Ok(list)
}

/// The names in name order.
pub fn in_name_order(mut names: Vec<Name>) -> Result<NameList, Oom>
    ensures { IfOk result (λ ordered. ordered ≡ in_order names.items) }
{
    names_and_cells();
    names.sort_by(|a, b| name_cmp(a, b))?;
    Ok(Items::of(names))
}
