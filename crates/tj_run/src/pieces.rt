//! What a task's record says of what the task gives, hands on and makes.
ghost use Rattle.std.specs.Prelude.{◌≡◌, ◌≢◌, ◌↔◌, ◌<◌, [], true, false, length, map, IfOk, IfSome, IsTrue, IsFalse, None};
ghost use Rattle.std.specs.List.{AllByRecursion, remove};
ghost use Rattle.tj_body.specs.Asks.{IsPaid};
ghost use Rattle.tj_body.specs.NameLaws.{has_cell, without_cell, hand_cells};
ghost use Rattle.tj_record.specs.declared.record.Held.{Held};
ghost use Rattle.tj_words.specs.Words.Lists.{numbers};
ghost use Rattle.tj_run.specs.Inner.Pieces as pieces;

use std::alloc::Global;
use tj_base::{CellId, CellList, Items, Oom, Pay, Sort, Trouble};
use tj_words::{Fill, Held, Hurt, Rec};

/// A cell as a value.
fn fill_of(h: Held) -> Fill
    ensures { result ≡ pieces.fill_of h.sort h.cell }
{
    match h.sort {
        Sort::Task => Fill::Task(h.cell),
        Sort::Promise => Fill::Promise(h.cell),
    }
}

/// What the task gives.
pub(crate) fn fill_at<B>(rec: &Rec<B>, v: Pay) -> Fill
    requires { IsPaid (length rec.now.held) v }
    ensures { result ≡ pieces.fill_at rec.now.held v }
{
    match v {
        Pay::Num(number) => Fill::Num(number),
        Pay::Ref(place) => fill_of(rec.at(place)),
    }
}

/// Why a task fails whose body finds this fault.
pub(crate) fn hurt_of(trouble: Trouble) -> Hurt
    ensures { result ≡ pieces.hurt_of trouble }
{
    match trouble {
        Trouble::Arith => Hurt::Arith,
        Trouble::Kind => Hurt::Kind,
        Trouble::Steps => Hurt::Steps,
    }
}

/// The index at which the cell stands first.
fn index_of(cells: &[CellId], c: CellId) -> Option<usize>
    ensures none { result ≡ None → has_cell c.0 (numbers cells.now) ≡ false }
    ensures has { IfSome result (λ i. has_cell c.0 (numbers cells.now) ≡ true) }
    ensures without { IfSome result (λ i. numbers (remove cells.now i)
        ≡ without_cell c.0 (numbers cells.now)) }
    ensures inside { IfSome result (λ i. i < length cells.now) }
{
    let mut i = 0;
    while i < cells.len() {
        if cells[i] == c {
            return Some(i);
        }
        i += 1;
    }
    None
}

/// The task no longer owns the cell, if it owns it. The cell isn't the task's own.
pub(crate) fn take_out<B>(rec: &mut Rec<B>, c: CellId) -> bool
    requires other { c.0 ≢ rec.old.cell.0 }
    ensures found { (result ≡ true) ↔ (has_cell c.0 (numbers rec.old.owned) ≡ true) }
    ensures without { IsTrue result → numbers rec.new.owned
        ≡ without_cell c.0 (numbers rec.old.owned) }
    ensures same { IsFalse result → rec.new ≡ rec.old }
    ensures others { rec.new ≡ record rec.old { owned = rec.new.owned } }
{
    let Some(at) = index_of(rec.promises(), c) else {
        return false;
    };
    rec.disown(at);
    true
}

/// The cells that the task holds at these places, with room for some more.
pub(crate) fn held_at<B>(alloc: Global, rec: &Rec<B>, places: &[u32]) -> Result<Vec<Held>, Oom>
    requires { AllByRecursion (λ k. k < length rec.now.held) places.now }
    ensures { IfOk result (λ found. found.items ≡ map (pieces.held_at rec.now.held) places.now) }
{
    if places.is_empty() {
        return Ok(Vec::new(alloc));
    }
    let mut found = Vec::with_capacity(alloc, places.len() + 4)?;
    for place in places {
        found.push(rec.at(*place))?;
    }
    Ok(found)
}

/// What is kept of these cells when those are handed one by one, or why that fails.
pub(crate) fn hand_all(
    alloc: Global,
    owned: &[CellId],
    handed: &[Held],
) -> Result<Result<CellList, Hurt>, Oom>
    ensures { IfOk result (λ left. pieces.AreKept left
        (hand_cells (numbers owned.now) (map pieces.numbered handed.now))) }
{
    let mut left = Vec::from_slice(alloc, owned)?;
    for h in handed {
        if let Sort::Task = h.sort {
            return Ok(Err(Hurt::Kind));
        }
        match index_of(left.as_slice(), h.cell) {
            None => return Ok(Err(Hurt::Owner(h.cell))),
            Some(at) => {
                left.remove(at);
            }
        }
    }
    Ok(Ok(Items::of(left)))
}

/// The cells of these.
pub(crate) fn cells_of(alloc: Global, held: &[Held]) -> Result<Vec<CellId>, Oom>
    ensures { IfOk result (λ cells. cells.items ≡ map (λ (h : Held). h.cell) held.now) }
{
    let mut cells = Vec::new(alloc);
    for h in held {
        cells.push(h.cell)?;
    }
    Ok(cells)
}

/// The record of a child at its start that is passed the cells which the task holds at these places, and
/// to which nothing is handed.
#[inline(always)]
pub(crate) fn bare_child<B: Drop>(
    alloc: Global,
    c: CellId,
    body: B,
    rec: &Rec<B>,
    places: &[u32],
) -> Result<Rec<B>, Oom>
    requires { AllByRecursion (λ k. k < length rec.now.held) places.now }
    ensures { IfOk result (λ r. r
        ≡ pieces.child_record c body (map (pieces.held_at rec.now.held) places.now) []) }
{
    let passed = held_at(alloc, rec, places)?;
    Rec::at_start(alloc, c, body, passed, Vec::new(alloc))
}
