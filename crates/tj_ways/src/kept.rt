//! A listener of which it is proved that it keeps what it is told, with a script's deadlock.
ghost use Rattle.std.specs.Prelude.{◌≡◌, ◌++◌, ◌∷◌, [], IfOk, IfSome};
ghost use Rattle.tj_embed.specs.Limits.{AreLimits};
ghost use Rattle.tj_told.specs.ToldNews.{AreApart, AreTold};
ghost use Rattle.tj_told.specs.declared.news.News.TheVariants as told;

use crate::scripts::CIRCLE;
use std::alloc::Global;
use std::sync::Wait;
use std::thread::Threads;
use tj_base::{Items, Name, Oom, Shown, add_count};
use tj_embed::{Options, script_in};
use tj_mean::{LinkList, Outcome};
use tj_told::{Goes, Listener, Looks, News, copy_of, copy_of_value, run_script_told};

/// Keeps all that it is told, and stops the run where memory is lacking.
#[derive(Drop)]
pub(crate) struct Kept {
    alloc: Global,
    news: Items<News>,
}

impl Kept {
    /// It was told nothing yet.
    pub(crate) fn new(alloc: Global) -> Kept
        ensures { result.news ≡ [] }
    {
        Kept {
            alloc,
            news: Items::of(Vec::new(alloc)),
        }
    }

    /// All that it was told.
    pub(crate) fn told(&self) -> &[News]
        ensures { result.now ≡ self.now.news }
    {
        self.news.items()
    }

    fn keep_cycle(&mut self, links: &LinkList) -> Result<(), Oom>
        ensures { IfOk result (λ _. self.new.news ≡ self.old.news ++ told.Cycle links.now ∷ []) }
    {
        let copy = copy_of(self.alloc, links)?;
        self.news.push(News::Cycle(copy))?;
        Ok(())
    }

    fn keep_broken(&mut self, name: &Name) -> Result<(), Oom>
        ensures { IfOk result (λ _. self.new.news ≡ self.old.news ++ told.Broken name.now ∷ []) }
    {
        let copy = name.copy(self.alloc)?;
        self.news.push(News::Broken(copy))?;
        Ok(())
    }

    fn keep_value(&mut self, name: &Name, value: &Shown) -> Result<(), Oom>
        ensures { IfOk result (λ _. self.new.news
            ≡ self.old.news ++ told.Value name.now value.now ∷ []) }
    {
        let copy = name.copy(self.alloc)?;
        let value_copy = copy_of_value(self.alloc, value)?;
        self.news.push(News::Value(copy, value_copy))?;
        Ok(())
    }
}

impl Listener for Kept {
    ghost use Rattle.std.specs.Prelude.{◌≡◌, ◌++◌, ◌∷◌, []};
    ghost use Rattle.tj_told.specs.declared.listener.Goes.TheVariants as goes;

    ghost tells = { λ before news answer after. answer ≡ goes.On
        → after.news ≡ before.news ++ news ∷ [] };

    fn cycle(&mut self, links: &LinkList) -> Goes {
        match self.keep_cycle(links) {
            Ok(()) => Goes::On,
            Err(Oom) => Goes::Stop,
        }
    }

    fn broken(&mut self, name: &Name) -> Goes {
        match self.keep_broken(name) {
            Ok(()) => Goes::On,
            Err(Oom) => Goes::Stop,
        }
    }

    fn value(&mut self, name: &Name, value: &Shown) -> Goes {
        match self.keep_value(name, value) {
            Ok(()) => Goes::On,
            Err(Oom) => Goes::Stop,
        }
    }
}

/// The outcome of a script, with what was told.
fn kept_of<R: Wait + Threads + Sync + AllocGlobal>(
    rt: &R,
    text: &[u8],
    options: Options,
    looks: Looks,
) -> Option<(Outcome, Kept)>
    requires { AreLimits options }
    // The listener has kept the outcome's cycles, and cells that are broken by it, each once.
    ensures { IfSome result (λ both. AreTold both.1.news both.0 × AreApart both.1.news) }
{
    let alloc = rt.alloc();
    let script = script_in(alloc, text).ok()?;
    let (outcome, kept) = run_script_told(rt, alloc, &script, options, looks, Kept::new(alloc));
    match outcome {
        Ok(outcome) => Some((outcome, kept)),
        Err(_fault) => None,
    }
}

/// How much is kept of a script in which two tasks wait for each other, where nobody looks while it
/// runs.
pub(crate) fn kept_circle<R: Wait + Threads + Sync + AllocGlobal>(rt: &R) -> Option<Vec<u8>> {
    let (_outcome, kept) = kept_of(rt, CIRCLE, Options::usual(), Looks::Never)?;
    let count = kept.told().len();
    let mut text = Vec::new(rt.alloc());
    add_count(&mut text, b"kept ", count as u128).ok()?;
    text.extend_from_slice(b"\n").ok()?;
    Some(text)
}

/// A promise that its task owes, beside a task that goes on.
const OWES: &[u8] = b"task main() {
  fork debtor();
  let n = 20000;
  while n > 0 {
    n = n - 1;
  }
  return 0;
}
task debtor() {
  let p = new;
  return 0;
}
";

/// What is told of this script, by looks without a pause: that the promise is broken, once, or nothing,
/// where no look came before the end.
pub(crate) fn kept_broken<R: Wait + Threads + Sync + AllocGlobal>(rt: &R) -> Option<Vec<u8>> {
    let alloc = rt.alloc();
    let (_outcome, kept) = kept_of(rt, OWES, Options::usual(), Looks::Every(0))?;
    let promise = Name::root().child(alloc, 1).ok()?.child(alloc, 1).ok()?;
    let told = kept.told();
    let so = told.len() <= 1 && told.iter().all(|news| is_broken(news, &promise));
    let mut text = Vec::new(alloc);
    let line: &[u8] = if so {
        b"broken, told once at most\n"
    } else {
        b"told too much\n"
    };
    text.extend_from_slice(line).ok()?;
    Some(text)
}

/// Whether it was told that this cell is broken.
fn is_broken(news: &News, cell: &Name) -> bool {
    match news {
        News::Cycle(_) | News::Value(_, _) => false,
        News::Broken(name) => *name == *cell,
    }
}
