//! The cells for which tasks wait, and their owners: each is read off the owner's word of the cell.
ghost use Rattle.std.specs.Prelude.{◌≡◌, ◌<◌, ℕ, Some, List, None, length, get_or, IfOk};
ghost use Rattle.std.specs.List.{All};
ghost use Rattle.tj_report.specs.Inner.AwaitedCells as waits;

use std::alloc::Global;
use tj_base::{CellId, Oom};
use tj_body::{Answer, Body};
use tj_words::{Rec, RestWords};

/// The cell for which the task with this record waits, if it does.
pub fn awaited<B>(r: &Rec<B>) -> Option<CellId>
    ensures { result ≡ waits.awaited_by r.now }
{
    match r.finish() {
        Some(_) => None,
        None => wait_in(r),
    }
}

/// The cell at the place that is the answer.
fn wait_in<B>(r: &Rec<B>) -> Option<CellId>
    ensures { result ≡ waits.wait_in r.now.answer r.now.held }
{
    match r.answer() {
        Answer::RefAt(k) => cell_at(r, k),
        Answer::Start | Answer::Local(_) | Answer::Done | Answer::Num(_) | Answer::Lost => None,
    }
}

/// The cell that is held at a place.
fn cell_at<B>(r: &Rec<B>, k: u32) -> Option<CellId>
    ensures { result ≡ waits.held_at r.now.held k }
{
    match r.find(k) {
        Some(h) => Some(h.cell),
        None => None,
    }
}

/// The cell for which the task of this cell waits, and the root if it doesn't wait.
pub fn awaited_at<B: Body>(rest: &RestWords<B>, c: u32) -> CellId
    requires there { c < length rest.now.cells }
    ensures { result ≡ waits.awaited_in (get_or rest.now.records c None) }
{
    match rest.rec(CellId(c)) {
        Some(r) => awaited(r).unwrap_or(CellId(0)),
        None => CellId(0),
    }
}

/// The owner of the cell for which the task of this cell waits, if it waits.
fn owner_at<B: Body>(rest: &RestWords<B>, t: u32) -> Option<CellId>
    requires there { t < length rest.now.cells }
    ensures { waits.IsOwnerAt rest.now.cells rest.now.records t result }
{
    let Some(r) = rest.rec(CellId(t)) else {
        return None;
    };
    let Some(c) = awaited(r) else {
        return None;
    };
    if c.0 < rest.drawn() {
        return rest.cell(c).own;
    }
    None
}

/// The index of each of these cells.
pub fn ranks_of(alloc: Global, order: &[u32], cells: usize) -> Result<Vec<Option<usize>>, Oom>
    requires { All (λ c. c < cells) order.now }
    ensures { IfOk result (λ ranks. waits.AreRanks order.now ranks.items) }
{
    let mut ranks = Vec::from_elem(alloc, None, cells)?;
    for i in 0..order.len() {
        ranks[order[i] as usize] = Some(i);
    }
    Ok(ranks)
}

/// For each of these tasks the index of the one that owns the cell for which it waits.
pub fn next_by<B: Body>(
    alloc: Global,
    rest: &RestWords<B>,
    order: &[u32],
    ranks: &[Option<usize>],
) -> Result<Vec<Option<usize>>, Oom>
    requires { All (λ c. c < length rest.now.cells) order.now }
    ensures { IfOk result (λ next.
        waits.AreNextBy rest.now.cells rest.now.records ranks.now order.now next.items) }
{
    let mut next = Vec::with_capacity(alloc, order.len())?;
    for t in order {
        next.push(rank_of(ranks, owner_at(rest, *t)))?;
    }
    Ok(next)
}

/// The index of a cell.
fn rank_of(ranks: &[Option<usize>], owner: Option<CellId>) -> Option<usize>
    ensures { result ≡ waits.rank_by ranks.now owner }
{
    match owner {
        Some(c) => rank_at(ranks, c.0 as usize),
        None => None,
    }
}

/// The index at a place of the list, if the list is so long.
fn rank_at(ranks: &[Option<usize>], c: usize) -> Option<usize>
    ensures { result ≡ get_or ranks.now c None }
{
    if c < ranks.len() {
        return ranks[c];
    }
    None
}
