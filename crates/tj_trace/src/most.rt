//! Which statement stands most often among what made cells.
ghost use Rattle.std.specs.Prelude.{◌≡◌, ◌⊎◌, ◌<◌, ◌≤◌, [], IfNone, IfOk, IfSome, IsTrue, IsFalse};
ghost use Rattle.tj_trace.specs.Inner.StatementCounts.{AreCounts, count_in};
ghost use Rattle.tj_trace.specs.MostOf as spec;

use crate::line::Maker;
use std::alloc::Global;
use std::collections::BTreeMap;
use tj_base::Oom;

/// A statement, and how many cells it made.
#[derive(Clone, Copy)]
pub struct Most {
    pub maker: Maker,
    pub count: usize,
}

/// The statement that stands most often among these, and first in the script of those that do.
pub fn most_of(alloc: Global, makers: &[Maker]) -> Result<Option<Most>, Oom>
    ensures some { IfOk result (λ found. IfSome found (spec.IsMostOf makers.now)) }
    ensures none { IfOk result (λ found. IfNone found (makers.now ≡ [])) }
{
    let counts = counts_of(alloc, makers)?;
    let Some(first) = makers.first() else {
        return Ok(None);
    };
    let mut most = counted(&counts, *first);
    for maker in makers {
        let next = counted(&counts, *maker);
        if is_ahead(next, most) {
            most = next;
        }
    }
    Ok(Some(most))
}

/// How often each statement stands among these, by its declaration and its number there.
fn counts_of(alloc: Global, makers: &[Maker]) -> Result<BTreeMap<(usize, usize), usize>, Oom>
    ensures { IfOk result (AreCounts makers.now) }
{
    let mut counts = BTreeMap::new(alloc);
    for maker in makers {
        let before = count_of(&counts, *maker);
        counts.insert((maker.decl, maker.at), before + 1)?;
    }
    Ok(counts)
}

/// The statement, with how often it stands among those that were counted.
fn counted(counts: &BTreeMap<(usize, usize), usize>, maker: Maker) -> Most
    ensures { result ≡ record { maker = maker; count = count_in counts.now maker } }
{
    Most {
        maker,
        count: count_of(counts, maker),
    }
}

/// How often the statement stands among those that were counted.
fn count_of(counts: &BTreeMap<(usize, usize), usize>, maker: Maker) -> usize
    ensures { result ≡ count_in counts.now maker }
{
    match counts.get(&(maker.decl, maker.at)) {
        Some(count) => *count,
        None => 0,
    }
}

/// Whether the first made more, or as many and stands earlier in the script.
fn is_ahead(next: Most, most: Most) -> bool
    ensures ahead { IsTrue result → (most.count < next.count)
        ⊎ ((next.count ≡ most.count) × spec.IsNotAfter next.maker most.maker) }
    ensures behind { IsFalse result → (next.count ≤ most.count)
        × (next.count ≡ most.count → spec.IsNotAfter most.maker next.maker) }
{
    if next.count != most.count {
        return next.count > most.count;
    }
    if next.maker.decl != most.maker.decl {
        return next.maker.decl < most.maker.decl;
    }
    next.maker.at < most.maker.at
}
