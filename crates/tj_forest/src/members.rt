//! The members of the cycles, in a map.
ghost use Rattle.std.specs.Prelude.{◌≡◌, ◌||◌, IfOk, map};
ghost use Rattle.std.specs.Option.{is_some};
ghost use Rattle.tj_base.specs.ForkOrder.{Name};
ghost use Rattle.tj_body.specs.Names.{has};
ghost use Rattle.tj_findings.specs.Findings as spec;
ghost use Rattle.tj_forest.specs.Inner.Numbers.{AreMembers, HasMembers, number_in};

use crate::lookups::{Members, Numbers};
use crate::owners::enter;
use std::alloc::Global;
use tj_base::{Name, Oom};
use tj_mean::{LinkList, NameMap};

/// The cycles with what finds their members.
pub fn members_of(alloc: Global, cycles: &[LinkList]) -> Result<Members<'_>, Oom>
    ensures cycles { IfOk result (λ members. members.cycles.now ≡ cycles.now) }
    ensures found { IfOk result HasMembers }
{
    let numbers = numbers_of(alloc, cycles)?;
    Ok(Members { cycles, numbers })
}

/// A number for each member.
fn numbers_of(alloc: Global, cycles: &[LinkList]) -> Result<Numbers, Oom>
    ensures { IfOk result (AreMembers cycles.now) }
{
    let mut numbers = NameMap::new(alloc);
    for (number, links) in cycles.iter().enumerate() {
        enter_cycle(alloc, &mut numbers, number, links)?;
    }
    Ok(numbers)
}

/// The members of one cycle more have this number.
fn enter_cycle(
    alloc: Global,
    numbers: &mut Numbers,
    number: usize,
    links: &LinkList,
) -> Result<(), Oom>
    ensures { IfOk result (λ _. (x : Name) → is_some (number_in numbers.new x)
        ≡ has x (map (λ k. k.task) links.now) || is_some (number_in numbers.old x)) }
{
    for link in links.items() {
        enter(alloc, numbers, number, &link.task)?;
    }
    Ok(())
}

/// Whether the task is a member of one of the cycles.
pub fn is_member(members: &Members, name: &Name) -> bool
    requires members { HasMembers members.now }
    ensures { result ≡ spec.is_member members.now.cycles.now name.now }
{
    members.numbers.get(name).copied().is_some()
}
