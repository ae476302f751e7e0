//! What a run begins with: a pool with the root in its first end, and a new table with its first seat.
ghost use Rattle.std.specs.Prelude.{◌≡◌, ◌≢◌, ◌<◌, ◌≤◌, [], All, IfErr, IfOk, length};
ghost use Rattle.tj_base.specs.declared.cell.TheConstants.{MAX_CELLS};
ghost use Rattle.tj_body.specs.Asks.{IsFresh};
ghost use Rattle.tj_words.specs.LawParts.FirstState.{first_view};

use crate::why::RunFault;
use std::alloc::Global;
use std::sync::Wait;
use tj_base::CellId;
use tj_body::Body;
use tj_ready::Pool;
use tj_words::{Laid, WSeat};

/// A pool with an end for each worker, and the table of this root. The root stands in the first end.
pub fn begun<B: Body, P: Pool, R: Wait>(
    rt: &R,
    alloc: Global,
    root: B,
    cells: u32,
    workers: u32,
    strict: bool,
) -> Result<(Vec<P>, Laid<B>, WSeat<B>), RunFault>
    requires cells { (0 < cells) × (cells ≤ MAX_CELLS) }
    requires workers { (0 < workers) × (workers ≤ 64) }
    requires root { IsFresh B.places B.awaits B.left 1 root }
    // There are as many ends as workers,
    ensures workers { IfOk result (λ made. length made.0.items ≡ workers) }
    // each for so many cells.
    ensures limit { IfOk result (λ made. All (λ end. P.limit end ≡ cells) made.0.items) }
    // The table has so many cells,
    ensures cells { IfOk result (λ made. made.1.cells ≡ cells) }
    // this rule
    ensures strict { IfOk result (λ made. made.1.strict ≡ strict) }
    // and this root.
    ensures root { IfOk result (λ made. made.1.root.value ≡ root) }
    // The seat is one of this table,
    ensures table { IfOk result (λ made. made.2.table_id ≡ made.1.table.shared.table_id) }
    // the first one.
    ensures view { IfOk result (λ made. made.2.me ≡ (first_view cells root strict, [])) }
    // An error is never Full.
    ensures memory { IfErr result (λ fault. fault ≢ RunFault.Full) }
{
    // The table first: the ends take the memory of the list of slots from which it is made.
    let (laid, seat) = Laid::new(alloc, cells, root, strict)?;
    let mut ends = P::make(rt, alloc, workers, cells)?;
    if let Some(first) = ends.as_mut_slice().first_mut() {
        first.put(rt, alloc, CellId(0))?;
    }
    Ok((ends, laid, seat))
}
