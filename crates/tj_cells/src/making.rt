//! Promises and tasks that a running task makes. A draw gives a cell; its words of the tree are
//! written while the seat has it in hand, and its owner last: from then on others may name it.
ghost use Rattle.std.specs.Prelude.{◌≡◌, ◌≢◌, ◌+◌, [], ◌∷◌, IfOk, Some, None, OnErr};
ghost use Rattle.tj_base.specs.declared.cell.Sort.TheVariants as sorts;
ghost use Rattle.tj_body.specs.Programs.{program_of};
ghost use Rattle.tj_tree.specs.Nodes.{InEachTree};
ghost use Rattle.tj_words.specs.Calls.DrawViews.{FindsNone, new_slots};
ghost use Rattle.tj_words.specs.Calls.OwnerViews.{handed_promise};
ghost use Rattle.tj_words.specs.SeatViews.SeatSteps.{IsCellOf, IsSameSeat, IsSeatOf};
ghost use Rattle.tj_words.specs.SeatViews.TreeReads.{IsLater, KnowsTask, MayLook, TreeShown};
ghost use Rattle.tj_cells.specs.CallLogs.{
  LooksOn,
  Makes,
  MakesNode,
  MakesPromise,
  MakesRefusedDraw,
  MakesTask,
  drawn_entries,
  owner_entry,
};
ghost use Rattle.tj_cells.specs.MadeCells.{IsMade, MayGiveAway, MayMake};
ghost use Rattle.tj_cells.specs.Inner.MakingSteps.{DrawsNamed, HasInHand, WritesNode, child_jump_of};

use tj_base::{CellId, Sort};
use tj_body::Body;
use tj_tree::{Node, NodeId};
use tj_words::{Laid, Once, Phase, WSeat, link_word};

/// All cells are drawn.
#[derive(Clone, Copy)]
pub struct Full;

/// A cell that a task makes.
pub type Made = Result<CellId, Full>;

/// A promise that task `t` makes and owns, as the `kid`-th thing that it makes.
pub fn make<B: Body>(laid: &Laid<B>, seat: &mut WSeat<B>, t: CellId, kid: u32) -> Made
    requires table { IsSeatOf laid.now seat.old }
    requires may { MayMake (program_of B.places B.awaits B.left B.asks B.then) t.0 kid
        seat.old.me.0 }
    // The seat is the same one of the same table, with the same slots.
    ensures seat { IsSameSeat seat.old seat.new }
    // A promise is made: it is there, its maker owns it and has made one thing more, nothing is in
    // hand, and all else that the seat has to do is as before.
    ensures made { IfOk result (λ c. IsMade sorts.Promise laid.now.cells t.0 c.0
        seat.old.me.0 seat.new.me.0) }
    // Full comes only where the draw of this call found no cell left: then the meaning is full, and
    // nothing else was written.
    ensures full { OnErr result (FindsNone (program_of B.places B.awaits B.left B.asks B.then)
        seat.old.me.0 seat.new.me.0) }
    // The call is these five steps: the draw, which found this cell, and the stores of PARENT, KID,
    // PHASE and OWN.
    ensures log_made { IfOk result (λ c. MakesPromise t.0 kid c.0 seat.old seat.new) }
    // Where it is Full it is one step, a draw that found COUNT at the table's cells or above.
    ensures log_full { OnErr result (MakesRefusedDraw laid.now.cells t.0 sorts.Promise seat.old
        seat.new) }
{
    let c = draw_named(laid, seat, t, kid, Sort::Promise)?;
    laid.put_phase(seat, c, Phase::Promise);
    laid.put_owner(seat, c, Some(t));
    Ok(c)
}

/// A child of task `t`, as the `kid`-th thing that it makes. It isn't ready yet, and owns its result.
#[inline(always)]
pub fn birth<B: Body>(laid: &Laid<B>, seat: &mut WSeat<B>, t: CellId, kid: u32) -> Made
    requires table { IsSeatOf laid.now seat.old }
    requires cell { IsCellOf laid.now t.0 }
    requires known { KnowsTask t.0 seat.old.me.0 }
    requires may { MayMake (program_of B.places B.awaits B.left B.asks B.then) t.0 kid
        seat.old.me.0 }
    // The seat is the same one of the same table.
    ensures seat { (seat.new.table_id ≡ seat.old.table_id) × (seat.new.id ≡ seat.old.id) }
    // A child is made: it is there, isn't ready, owns its result and is the seat's; its maker has
    // made one thing more.
    ensures made { IfOk result (λ c. IsMade sorts.Task laid.now.cells t.0 c.0
        seat.old.me.0 seat.new.me.0) }
    // The child's slot is the seat's, and empty.
    ensures slot { IfOk result (λ c. seat.new.me.1 ≡ (c.0, None) ∷ seat.old.me.1) }
    // Full comes only where the draw of this call found no cell left, and then nothing else was
    // written.
    ensures full { OnErr result (FindsNone (program_of B.places B.awaits B.left B.asks B.then)
        seat.old.me.0 seat.new.me.0 × (seat.new.me.1 ≡ seat.old.me.1)) }
    // The call is the draw, which found this cell, the stores of PARENT and KID, the loads of
    // PARENT, KID, DEPTH and JUMP of three tasks, in this order of each, and the stores of DEPTH,
    // JUMP and OWN. The tasks are its maker, the one where that jumps, and the one where this
    // jumps; DEPTH is stored as one more than that of its maker, and JUMP as the number that
    // `put_once` asks for.
    ensures log_made { IfOk result (λ c. MakesTask t.0 kid c.0 seat.old seat.new) }
    // Where it is Full it is one step, a draw that found COUNT at the table's cells or above.
    ensures log_full { OnErr result (MakesRefusedDraw laid.now.cells t.0 sorts.Task seat.old
        seat.new) }
{
    let c = draw_named(laid, seat, t, kid, Sort::Task)?;
    put_node(laid, seat, t, c);
    laid.put_owner(seat, c, Some(c));
    Ok(c)
}

/// Task `t` hands a promise that it owns to a child of it that isn't ready yet.
pub fn hand<B: Body>(laid: &Laid<B>, seat: &mut WSeat<B>, t: CellId, p: CellId, child: CellId)
    requires table { IsSeatOf laid.now seat.old }
    requires cell { IsCellOf laid.now p.0 }
    requires may { MayGiveAway t.0 p.0 child.0 seat.old.me.0 }
    // The seat is the same one of the same table, with the same slots.
    ensures seat { IsSameSeat seat.old seat.new }
    // The promise is the child's.
    ensures view { seat.new.me.0 ≡ handed_promise t.0 p.0 child.0 seat.old.me.0 }
    // The call is one step, the store of the child as the promise's owner.
    ensures log { Makes (owner_entry p.0 (Some child.0) ∷ []) seat.old seat.new }
{
    laid.put_owner(seat, p, Some(child));
}

// A cell that task `t` draws as the `kid`-th thing that it makes, with PARENT and KID written.
fn draw_named<B: Body>(laid: &Laid<B>, seat: &mut WSeat<B>, t: CellId, kid: u32, sort: Sort) -> Made
    requires table { IsSeatOf laid.now seat.old }
    requires may { MayMake (program_of B.places B.awaits B.left B.asks B.then) t.0 kid
        seat.old.me.0 }
    ensures seat { (seat.new.table_id ≡ seat.old.table_id) × (seat.new.id ≡ seat.old.id) }
    ensures drawn { IfOk result (λ c. DrawsNamed laid.now.cells t.0 kid sort c.0
        seat.old.me.0 seat.new.me.0) }
    ensures slots { IfOk result (λ c. seat.new.me.1 ≡ new_slots c.0 sort seat.old.me.1) }
    ensures full { OnErr result (FindsNone (program_of B.places B.awaits B.left B.asks B.then)
        seat.old.me.0 seat.new.me.0 × (seat.new.me.1 ≡ seat.old.me.1)) }
    ensures log_drawn { IfOk result (λ c. Makes (drawn_entries t.0 kid sort c.0) seat.old seat.new) }
    ensures log_full { OnErr result (MakesRefusedDraw laid.now.cells t.0 sort seat.old seat.new) }
{
    let Some(c) = laid.draw_one(seat, t, sort) else {
        return Err(Full);
    };
    laid.put_once(seat, c, Once::Parent, link_word(t));
    laid.put_once(seat, c, Once::Kid, kid as u64);
    Ok(c)
}

// Writes DEPTH and JUMP of a new child of task `t`.
fn put_node<B: Body>(laid: &Laid<B>, seat: &mut WSeat<B>, t: CellId, c: CellId)
    requires look { MayLook laid.now seat.old t.0 }
    requires cell { IsCellOf laid.now c.0 }
    requires hand { HasInHand t.0 c.0 seat.old.me.0 }
    ensures seat { IsSameSeat seat.old seat.new }
    ensures node { WritesNode laid.now.cells c.0 seat.old.me.0 seat.new.me.0 }
    ensures log { MakesNode t.0 c.0 seat.old seat.new }
{
    let maker = laid.see_node(seat, t);
    let jump = child_jump(laid, seat, t, maker);
    laid.put_once(seat, c, Once::Depth, maker.depth as u64 + 1);
    laid.put_once(seat, c, Once::Jump, link_word(CellId(jump.0)));
}

// Where a child of task `t` jumps, of which this is the node: two jumps up from `t` where these are
// equally long, else to `t`.
fn child_jump<B: Body>(laid: &Laid<B>, seat: &mut WSeat<B>, t: CellId, node: Node) -> NodeId
    requires shown { TreeShown seat.old t.0 node }
    requires look { MayLook laid.now seat.old node.jump.0 }
    ensures jump { InEachTree (TreeShown seat.new) (λ forks. result.0 ≡ child_jump_of t.0 forks) }
    ensures loads { seat.new.me.0.once_loads ≡ seat.old.me.0.once_loads + 8 }
    ensures later { IsLater laid.now.cells seat.old seat.new }
    ensures log { LooksOn node.jump.0 seat.old seat.new }
{
    let near = laid.see_node(seat, CellId(node.jump.0));
    let far = laid.see_node(seat, CellId(near.jump.0));
    if node.depth.saturating_sub(near.depth) == near.depth.saturating_sub(far.depth) {
        near.jump
    } else {
        NodeId(t.0)
    }
}
