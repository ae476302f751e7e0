//! Lists of the promises that a task holds: search, and name order.
ghost use Rattle.std.specs.Prelude.{◌≡◌, ◌<◌, ◌≤◌, length, false, true, IfOk, MatchOption};
ghost use Rattle.std.specs.List.{remove};
ghost use Rattle.tj_body.specs.Names.{has, without, in_order};

use tj_base::{Items, Name, NameList, Oom, name_cmp};
use tj_body::names_and_cells;

/// Where the name stands first.
pub fn index_of(names: &[Name], q: &Name) -> Option<usize>
    ensures none { MatchOption result (has q.now names.now ≡ false)
        (λ i. has q.now names.now ≡ true) }
    ensures some { MatchOption result (without q.now names.now ≡ names.now)
        (λ i. remove names.now i ≡ without q.now names.now) }
    ensures within { MatchOption result (has q.now names.now ≡ false) (λ i. i < length names.now) }
{
    for (i, name) in names.iter().enumerate() {
        if q == name {
            return Some(i);
        }
    }
    None
}

/// The names in name order.
pub fn sorted(names: NameList) -> Result<NameList, Oom>
    ensures { IfOk result (λ sorted. sorted ≡ in_order names) }
{
    names_and_cells();
    let mut sorted = names.into_vec();
    sorted.sort_by(|a, b| name_cmp(a, b))?;
    Ok(Items::of(sorted))
}
