//! The queue behind the lock of a locked pool, and its two calls, which are lent it. No contract
//! can say what lies behind a lock, so their clauses say what a put and a take do.
ghost use Rattle.std.specs.Prelude.{◌≡◌, [], ◌∷◌, ◌++◌, None, OnOk, OnErr, IfSome, ◌↔◌};

use std::alloc::Global;
use std::collections::VecDeque;
use std::marker::Model;
use tj_base::{CellId, Oom};

/// Ready tasks, the oldest first. Only a locked pool makes one.
#[derive(Drop)]
pub struct LockedQueue {
    waiting: VecDeque<CellId>,
}

impl Model for LockedQueue {
    ghost use Rattle.std.specs.Prelude.{List};
    ghost use Rattle.tj_base.specs.declared.cell.CellId.{CellId};

    ghost Value = { List CellId };

    ghost view = { λ queue. queue.waiting.items };
}

impl LockedQueue {
    // A queue with no cell.
    pub(crate) fn new(alloc: Global) -> LockedQueue
        ensures { result ≡ [] }
    {
        LockedQueue {
            waiting: VecDeque::new(alloc),
        }
    }
}

/// Adds the cell at the back. After `Oom` the queue is as before.
pub fn queue_put(_alloc: Global, queue: &mut LockedQueue, t: CellId) -> Result<(), Oom>
    // After `Ok` the queue has the cell more, at its back.
    ensures ok { OnOk result (queue.new ≡ queue.old ++ t ∷ []) }
    // After an error the queue is as before.
    ensures err { OnErr result (queue.new ≡ queue.old) }
{
    queue.waiting.push_back(t)?;
    Ok(())
}

/// Takes out the front. `None` comes exactly where the queue is empty. It takes no memory.
pub fn queue_take(queue: &mut LockedQueue) -> Option<CellId>
    // None comes exactly where the queue is empty.
    ensures none { (result ≡ None) ↔ (queue.old ≡ []) }
    // Then the queue stays empty.
    ensures empty { result ≡ None → queue.new ≡ [] }
    // Else its front is given and taken out.
    ensures front { IfSome result (λ t. queue.old ≡ t ∷ queue.new) }
{
    queue.waiting.pop_front()
}
