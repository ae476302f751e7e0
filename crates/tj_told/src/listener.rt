//! Who is told of deadlocks, of what is broken, and of the value of a cell that is watched.
ghost use Rattle.std.specs.Prelude.{⊤};
ghost use Rattle.tj_told.specs.declared.listener.Goes.{Goes};
ghost use Rattle.tj_told.specs.declared.news.News.{News};
ghost use Rattle.tj_told.specs.declared.news.News.TheVariants as news;

use tj_base::{Name, Shown};
use tj_mean::LinkList;

/// Whether a run is to go on of which something was told.
#[derive(Clone, Copy, Debug, PartialEq, Eq)]
pub enum Goes {
    On,
    /// The run is to be stopped, and nothing more is told.
    Stop,
}

/// Who is told of deadlocks, of what is broken, and of the value of a cell that is watched. It may be
/// called from another thread, but by one at a time.
pub trait Listener: Sized + Send + Drop {
    /// What is to be known of a call: of the listener before, what it is told, its answer and the
    /// listener after it.
    ghost tells: { Self → News → Goes → Self → Type 0 } = { λ _ _ _ _. ⊤ };

    /// It is told of tasks that wait for each other for good, from the least name on.
    fn cycle(&mut self, links: &LinkList) -> Goes
        // A call is as the listener says that its calls are.
        ensures { tells self.old (news.Cycle links.now) result self.new };

    /// It is told of a promise, or of the result of a task, that has no value and gets none.
    fn broken(&mut self, name: &Name) -> Goes
        // A call is as the listener says that its calls are.
        ensures { tells self.old (news.Broken name.now) result self.new };

    /// It is told the value of the cell that is watched by this name (by `watch_named`).
    fn value(&mut self, name: &Name, value: &Shown) -> Goes
        // A call is as the listener says that its calls are.
        ensures { tells self.old (news.Value name.now value.now) result self.new };
}
