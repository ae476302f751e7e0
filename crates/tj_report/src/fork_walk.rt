//! The walk over the fork tree in name order: from a task to its first fork, or else to the fork that
//! comes next after it or after the first of its makers that has one. The printed name of the present
//! task is kept: a fork adds a part, and the way up cuts it off. The lists of forks are only where to
//! look: that a cell is a later fork of the same maker is read off its words.
ghost use Rattle.std.specs.Prelude.{◌≡◌, ◌++◌, ◌<◌, ◌∷◌, [], ℕ, List, length, IfOk, IfSome};
ghost use Rattle.tj_base.specs.Texts.{name_text};
ghost use Rattle.tj_body.specs.declared.point.Reference.{Reference};
ghost use Rattle.tj_report.specs.Inner.CellNamesBy.{name_by};
ghost use Rattle.tj_report.specs.Inner.WalkedReports.{IsForkOf, IsPrintedAfter};
ghost use Rattle.tj_words.specs.AtRest.ClosedCells.{AreNamed};

use crate::shown_names::{add_parts, cut_part};
use std::alloc::Global;
use tj_base::{CellId, Oom};
use tj_body::Body;
use tj_words::RestWords;

/// The first task that a task forked, and the task that its maker forked next after it.
#[derive(Clone, Copy)]
pub struct Kin {
    first: Option<u32>,
    next: Option<u32>,
}

/// The kin of each task: forks are drawn one after the other.
pub fn kin_of<B: Body>(alloc: Global, rest: &RestWords<B>) -> Result<Vec<Kin>, Oom>
    ensures { IfOk result (λ kin. length kin.items ≡ length rest.now.cells) }
{
    let nobody = Kin {
        first: None,
        next: None,
    };
    let mut kin = Vec::from_elem(alloc, nobody, rest.drawn() as usize)?;
    let mut c = rest.drawn();
    while c > 1 {
        c -= 1;
        if rest.rec(CellId(c)).is_some() {
            let up = rest.cell(CellId(c)).parent.0;
            put_before(&mut kin, up as usize, c);
        }
    }
    Ok(kin)
}

/// The task is the first fork of its maker, as far as is known.
fn put_before(kin: &mut Vec<Kin>, up: usize, c: u32)
    ensures { length kin.new.items ≡ length kin.old.items }
{
    if up >= kin.len() || c as usize >= kin.len() {
        return;
    }
    let known = kin[up];
    let own = kin[c as usize];
    kin[c as usize] = Kin {
        first: own.first,
        next: known.first,
    };
    kin[up] = Kin {
        first: Some(c),
        next: known.next,
    };
}

/// The task after this one in name order, whose printed name is made of this one's.
pub fn next_task<B: Body>(
    rest: &RestWords<B>,
    kin: &[Kin],
    t: u32,
    name: &mut Vec<u8>,
) -> Result<Option<u32>, Oom>
    requires there { t < length rest.now.cells }
    requires kin { length kin.now ≡ length rest.now.cells }
    requires name { name.old.items ≡ name_text (name_by rest.now.cells t) }
    requires named { (born : List Reference) × AreNamed rest.now.cells born }
    ensures { IfOk result (λ next. IfSome next (λ u.
        IsPrintedAfter rest.now.cells t name.new.items u)) }
{
    if let Some(child) = kin[t as usize].first {
        // The numbers of forks begin at 1.
        return fork_after(rest, t, 0, child, name);
    }
    let mut at = t;
    while at > 0 {
        let cell = rest.cell(CellId(at));
        cut_part(cell.kid, name);
        if let Some(next) = kin[at as usize].next {
            return fork_after(rest, cell.parent.0, cell.kid, next, name);
        }
        at = cell.parent.0;
    }
    Ok(None)
}

/// Goes from a task to a fork of it with a greater number than this, if the cell is one.
fn fork_after<B: Body>(
    rest: &RestWords<B>,
    t: u32,
    kid: u32,
    next: u32,
    name: &mut Vec<u8>,
) -> Result<Option<u32>, Oom>
    requires name { name.old.items ≡ name_text (name_by rest.now.cells t) }
    requires named { (born : List Reference) × AreNamed rest.now.cells born }
    ensures { IfOk result (λ later. IfSome later (λ u. (k : ℕ) × (kid < k)
        × IsForkOf rest.now.cells t k name.new.items u)) }
{
    let Some(k) = number_of(rest, t, next) else {
        return Ok(None);
    };
    if k <= kid {
        return Ok(None);
    }
    add_parts(&[k], name)?;
    Ok(Some(next))
}

/// The number of a cell among those that its maker made, if this is its maker.
fn number_of<B: Body>(rest: &RestWords<B>, maker: u32, c: u32) -> Option<u32>
    requires named { (born : List Reference) × AreNamed rest.now.cells born }
    ensures { IfSome result (λ k. (c < length rest.now.cells)
        × (name_by rest.now.cells c ≡ name_by rest.now.cells maker ++ k ∷ [])) }
{
    if c == 0 || c >= rest.drawn() {
        return None;
    }
    let cell = rest.cell(CellId(c));
    if cell.parent.0 == maker {
        return Some(cell.kid);
    }
    None
}
