//! What is told at rest: each cycle of the outcome that wasn't told yet.
ghost use Rattle.std.specs.Prelude.{◌≡◌, ◌≢◌, ◌⊎◌, List, Err, IfOk};
ghost use Rattle.tj_body.specs.Points.{IsIn};
ghost use Rattle.tj_mean.specs.declared.outcome.Link.{Link};
ghost use Rattle.tj_told.specs.Hearing.{HearsOn, IsStoppedOn};
ghost use Rattle.tj_told.specs.ToldNews.{IsCycleOf};
ghost use Rattle.tj_told.specs.declared.fault.ToldFault.TheVariants as fault;
ghost use Rattle.tj_told.specs.declared.news.News.{News};
ghost use Rattle.tj_told.specs.declared.news.News.TheVariants as told;

use crate::fault::ToldFault;
use crate::listener::{Goes, Listener};
use crate::telling::Telling;
use std::alloc::Global;
use tj_mean::CycleList;

/// Tells each of the cycles that wasn't told yet.
pub(crate) fn tell_rest<T: Listener>(
    alloc: Global,
    cycles: &CycleList,
    telling: &mut Telling<T>,
) -> Result<(), ToldFault>
    ensures only { (n : News) → IsIn n telling.new.news
        → IsIn n telling.old.news ⊎ IsCycleOf cycles.now n }
    ensures all { IfOk result (λ _. (c : List Link) → IsIn c cycles.now
        → IsIn (told.Cycle c) telling.new.news) }
    ensures goes { HearsOn T.tells telling.old telling.new (result ≢ Err fault.Stopped) }
    ensures stops { IsStoppedOn T.tells telling.old telling.new (result ≡ Err fault.Stopped) }
    ensures full { result ≢ Err fault.Full }
{
    for cycle in cycles.items() {
        match telling.tell_new(alloc, cycle)? {
            Goes::On => {}
            Goes::Stop => return Err(ToldFault::Stopped),
        }
    }
    Ok(())
}
