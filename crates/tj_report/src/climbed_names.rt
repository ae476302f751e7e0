//! The name of a cell, by its makers up to the root: no names of others are made for it.
ghost use Rattle.std.specs.Prelude.{[], ◌∷◌, ◌≡◌, ◌++◌, ◌<◌, ℕ, List, length, map, IfOk};
ghost use Rattle.std.specs.List.{AllByRecursion};
ghost use Rattle.tj_base.specs.Texts.{name_text};
ghost use Rattle.tj_body.specs.declared.point.Reference.{Reference};
ghost use Rattle.tj_report.specs.Inner.CellNames.{IsBelow, name_in};
ghost use Rattle.tj_report.specs.Inner.CellNamesBy.{name_by, names_by};
ghost use Rattle.tj_words.specs.AtRest.ClosedCells.{AreNamed};

use crate::shown_names::add_parts;
use std::alloc::Global;
use tj_base::{CellId, Name, Oom};
use tj_body::Body;
use tj_words::RestWords;

/// Adds these bytes and the name of a cell.
pub fn add_cell<B: Body>(
    alloc: Global,
    before: &[u8],
    rest: &RestWords<B>,
    c: CellId,
    text: &mut Vec<u8>,
) -> Result<(), Oom>
    requires there { c.0 < length rest.now.cells }
    requires named { (born : List Reference) × AreNamed rest.now.cells born }
    ensures { IfOk result (λ _. text.new.items
        ≡ text.old.items ++ (before.now ++ name_text (name_by rest.now.cells c.0))) }
{
    let parts = parts_of(alloc, rest, c)?;
    text.extend_from_slice(before)?;
    text.push(b'0')?;
    add_parts(parts.as_slice(), text)
}

/// The numbers of the name of a cell.
fn parts_of<B: Body>(alloc: Global, rest: &RestWords<B>, c: CellId) -> Result<Vec<u32>, Oom>
    requires there { c.0 < length rest.now.cells }
    requires named { (born : List Reference) × AreNamed rest.now.cells born }
    ensures { IfOk result (λ parts. parts.items ≡ name_by rest.now.cells c.0) }
{
    let mut parts = Vec::new(alloc);
    let mut at = c.0;
    while at > 0 {
        let cell = rest.cell(CellId(at));
        parts.push(cell.kid)?;
        at = cell.parent.0;
    }
    parts.reverse();
    Ok(parts)
}

/// The names of cells.
pub fn climbed_names<B: Body>(
    alloc: Global,
    rest: &RestWords<B>,
    cells: &[CellId],
) -> Result<Vec<Name>, Oom>
    requires below { AllByRecursion (IsBelow (length rest.now.cells)) cells.now }
    requires named { (born : List Reference) × AreNamed rest.now.cells born }
    ensures { IfOk result (λ list. list.items ≡ map (name_in (names_by rest.now.cells)) cells.now) }
{
    let mut list = Vec::new(alloc);
    let mut at = CellId(0);
    let mut name = Name::root();
    for c in cells {
        name = name_beside(alloc, rest, *c, at, &name)?;
        at = *c;
        list.push(name.copy(alloc)?)?;
    }
    Ok(list)
}

/// The name of a cell.
pub fn name_at<B: Body>(alloc: Global, rest: &RestWords<B>, c: CellId) -> Result<Name, Oom>
    requires there { c.0 < length rest.now.cells }
    requires named { (born : List Reference) × AreNamed rest.now.cells born }
    ensures { IfOk result (λ name. name ≡ name_by rest.now.cells c.0) }
{
    name_beside(alloc, rest, c, CellId(0), &Name::root())
}

/// The name of a cell. It shares with the name of another one those of the makers that both have in
/// common.
// Of the two cells it goes up from the one with the greater number, till they are the same: a maker
// has a smaller number than what it made.
fn name_beside<B: Body>(
    alloc: Global,
    rest: &RestWords<B>,
    c: CellId,
    other: CellId,
    name: &Name,
) -> Result<Name, Oom>
    requires there { c.0 < length rest.now.cells }
    requires other { other.0 < length rest.now.cells }
    requires name { name.now ≡ name_by rest.now.cells other.0 }
    requires named { (born : List Reference) × AreNamed rest.now.cells born }
    ensures { IfOk result (λ found. found ≡ name_by rest.now.cells c.0) }
{
    let mut parts = Vec::new(alloc);
    let mut at = c.0;
    let mut beside = other.0;
    let mut common = name;
    while at != beside {
        if at < beside {
            beside = rest.cell(CellId(beside)).parent.0;
            common = maker_of(common);
        } else {
            let cell = rest.cell(CellId(at));
            parts.push(cell.kid)?;
            at = cell.parent.0;
        }
    }
    parts.reverse();
    common.descendant(alloc, parts.as_slice())
}

/// The name of the maker of what is named.
fn maker_of(name: &Name) -> &Name
    requires { 0 < length name.now }
    ensures { (k : ℕ) × (name.now ≡ result.now ++ k ∷ []) }
{
    match name.split_last() {
        Some((_, maker)) => maker,
        None => name,
    }
}
