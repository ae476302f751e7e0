//! Copies of cycles and of values, and the tests whether two cycles are equal, and whether one was told.
ghost use Rattle.std.specs.Prelude.{◌≡◌, IfOk};
ghost use Rattle.std.specs.List.{list_any};
ghost use Rattle.tj_told.specs.ToldNews.{same_cycle, tells_cycle};

use crate::news::News;
use std::alloc::Global;
use tj_base::{Items, Oom, Shown};
use tj_mean::{Link, LinkList};

/// A copy of a cycle.
pub fn copy_of(alloc: Global, links: &LinkList) -> Result<LinkList, Oom>
    // It is an equal cycle.
    ensures { IfOk result (λ copy. copy ≡ links.now) }
{
    let mut copy = Vec::new(alloc);
    for link in links.items() {
        copy.push(link_copy(alloc, link)?)?;
    }
    Ok(Items::of(copy))
}

/// An equal link.
fn link_copy(alloc: Global, link: &Link) -> Result<Link, Oom>
    ensures { IfOk result (λ copy. copy ≡ link.now) }
{
    let task = link.task.copy(alloc)?;
    let cell = link.cell.copy(alloc)?;
    Ok(Link { task, cell })
}

/// A copy of a value.
pub fn copy_of_value(alloc: Global, value: &Shown) -> Result<Shown, Oom>
    // It is an equal value.
    ensures { IfOk result (λ copy. copy ≡ value.now) }
{
    match value {
        Shown::Num(number) => Ok(Shown::Num(*number)),
        Shown::Ref(name) => Ok(Shown::Ref(name.copy(alloc)?)),
    }
}

/// Whether the cycle is among what was told.
pub(crate) fn is_among(links: &LinkList, told: &[News]) -> bool
    ensures { result ≡ list_any (tells_cycle links.now) told.now }
{
    told.iter().any(|news| tells_cycle(links, news))
}

/// Whether the cycle is what was told.
fn tells_cycle(links: &LinkList, news: &News) -> bool
    ensures { result ≡ tells_cycle links.now news.now }
{
    match news {
        News::Cycle(cycle) => are_same(links, cycle),
        News::Broken(_) | News::Value(_, _) => false,
    }
}

/// Whether two cycles are equal.
fn are_same(a: &LinkList, b: &LinkList) -> bool
    ensures { result ≡ same_cycle a.now b.now }
{
    a == b
}
