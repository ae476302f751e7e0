//! Cells that the root of a small table makes, fills and breaks, by one seat.
ghost use Rattle.std.specs.Prelude.{◌≡◌, ◌<◌, ◌≤◌, [], ◌∷◌, pos, IfOk};
ghost use Rattle.tj_base.specs.declared.cell.TheConstants.{MAX_CELLS};
ghost use Rattle.tj_base.specs.declared.value.Pay.TheVariants.{Num};
ghost use Rattle.tj_body.specs.declared.table.Row.TheVariants.{New, Set};

use crate::shown::holds;
use std::alloc::Global;
use std::process::Abort;
use std::test::Fail;
use tj_base::{CellId, Items, Oom, Pay};
use tj_body::{Row, RowList, TableBody};
use tj_cells::{Seen, break_off, fill, make, value};
use tj_park::claim;
use tj_words::{Fill, Laid};

/// The root makes a promise and sets it to 5, and makes two more.
fn three_promises(alloc: Global) -> Result<[RowList; 1], Oom>
    ensures { IfOk result (λ lists. lists
        ≡ (New ∷ Set 1 (Num (pos 5)) ∷ New ∷ New ∷ []) ∷ []) }
{
    let rows = [
        Row::New,
        Row::Set {
            p: 1,
            v: Pay::Num(5),
        },
        Row::New,
        Row::New,
    ];
    Ok([Items::of(Vec::from_array(alloc, rows)?)])
}

/// The root makes a promise and fills it. Then it makes another one and breaks it, if a cell is left.
fn makes_two(rt: &impl Abort, alloc: Global, cells: u32, is_full: bool) -> Result<(), Fail>
    requires { (0 < cells) × (cells ≤ MAX_CELLS) }
{
    let lists = three_promises(alloc)?;
    let (laid, mut seat) = Laid::new(alloc, cells, TableBody::new(&lists, 0), true)?;
    let root = CellId(0);
    let rec = claim(&laid, &mut seat, root).expect(rt, "the root is ready");
    if rec.made() != 0 {
        panic!(rt; "it has made nothing yet");
    }
    let Ok(p) = make(&laid, &mut seat, root, 1) else {
        panic!(rt; "a cell is left");
    };
    holds(rt, "the next cell", p == CellId(1));
    holds(rt, "not yet", value(&laid, &mut seat, p) == Seen::NotYet);
    fill(&laid, &mut seat, root, p, Fill::Num(5));
    holds(rt, "filled", value(&laid, &mut seat, p) == Seen::Num(5));
    let Ok(q) = make(&laid, &mut seat, root, 2) else {
        holds(rt, "no cell is left", is_full);
        return Ok(());
    };
    holds(rt, "one more is left", !is_full);
    break_off(&laid, &mut seat, root, q);
    holds(rt, "broken", value(&laid, &mut seat, q) == Seen::Broken);
    Ok(())
}

#[test]
fn cells_are_made_filled_and_broken(rt: HostRuntime) -> Result<(), Fail> {
    makes_two(&rt, rt.alloc(), 2, true)?;
    makes_two(&rt, rt.alloc(), 3, false)
}
