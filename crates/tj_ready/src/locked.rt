//! One queue behind a lock, which all workers share. Tests measure the stealing pool by it.
use crate::laws::{LockedQueue, queue_put, queue_take};
use crate::pool::Pool;
use std::alloc::Global;
use std::sync::{Arc, Mutex, Wait};
use tj_base::{CellId, Oom};

/// An end of a pool with one queue. What its calls do to the queue is said at `laws`.
#[derive(Drop)]
pub struct LockedPool {
    cells: u32,
    queue: Arc<Mutex<LockedQueue>, Global>,
}

impl Pool for LockedPool {
    ghost limit = { λ end. end.cells };

    fn make<R: Wait>(_rt: &R, alloc: Global, workers: u32, cells: u32) -> Result<Vec<Self>, Oom> {
        let queue = Arc::new(alloc, Mutex::new(LockedQueue::new(alloc)))?;
        let mut ends = Vec::with_capacity(alloc, workers as usize)?;
        for _i in 0..workers {
            let queue = Arc::try_clone(&queue)?;
            ends.push(LockedPool { cells, queue })?;
        }
        Ok(ends)
    }

    fn put<R: Wait>(&mut self, rt: &R, alloc: Global, t: CellId) -> Result<(), Oom> {
        queue_put(alloc, &mut *self.queue.lock(rt), t)
    }

    // Each cell that was put is below the limit. What the lock gives is looked at again, since no
    // contract tells what lies behind it.
    fn take<R: Wait>(&mut self, rt: &R) -> Option<CellId> {
        let t = queue_take(&mut *self.queue.lock(rt))?;
        (t.0 < self.cells).then_some(t)
    }
}
