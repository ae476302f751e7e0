//! A run that needs more cells than it may have, beside a deadlock: what was told of it stood at its end.
ghost use Rattle.std.specs.Prelude.{◌≡◌, IfSome, None};
ghost use Rattle.tj_embed.specs.Limits.{AreLimits};
ghost use Rattle.tj_syntax.specs.ScriptTexts.{IsSomeScript};
ghost use Rattle.tj_syntax.specs.View as shown;
ghost use Rattle.tj_told.specs.EndedNews.{IsEarlyOfScript};
ghost use Rattle.tj_told.specs.ToldNews.{AreApart};

use crate::kept::Kept;
use std::sync::Wait;
use std::thread::Threads;
use tj_embed::{Options, script_in};
use tj_syntax::Script;
use tj_told::{Looks, News, ToldFault, run_script_told};

/// Two tasks that wait for each other, beside one that counts down and then forks the same again, for
/// ever.
pub(crate) const FILLS: &[u8] = b"task main() {
  let p = new;
  let q = new;
  fork filler(20000);
  fork partner(own p, q);
  fork partner(own q, p);
  return 0;
}
task partner(mine, other) {
  let v = get other;
  set mine = v;
  return v;
}
task filler(n) {
  let k = n;
  while k > 0 {
    k = k - 1;
  }
  fork filler(n);
  return 0;
}
";

/// What was told of a script whose run ends with Full.
fn told_of_full<R: Wait + Threads + Sync + AllocGlobal>(
    rt: &R,
    script: &Script,
    options: Options,
) -> Option<Kept>
    requires limits { AreLimits options }
    requires script { IsSomeScript (shown.script script.now) }
    // What was kept stood at the end of the run, and nothing was kept twice.
    ensures { IfSome result (λ kept. IsEarlyOfScript (shown.script script.now) options None
        ToldFault.Full kept.news × AreApart kept.news) }
{
    let kept = Kept::new(rt.alloc());
    let (run, kept) = run_script_told(rt, rt.alloc(), script, options, Looks::Every(0), kept);
    match run {
        Ok(_outcome) => None,
        Err(fault) => only_of_full(fault, kept),
    }
}

/// What was kept, where the fault is Full.
fn only_of_full(fault: ToldFault, kept: Kept) -> Option<Kept>
    ensures { IfSome result (λ same. (fault ≡ ToldFault.Full) × (same ≡ kept)) }
{
    match fault {
        ToldFault::Full => Some(kept),
        ToldFault::Oom | ToldFault::Stopped => None,
    }
}

/// Whether such a run is full, and no more was told of it than one cycle of two tasks.
pub(crate) fn full_beside_a_knot<R: Wait + Threads + Sync + AllocGlobal>(
    rt: &R,
) -> Option<Vec<u8>> {
    let script = script_in(rt.alloc(), FILLS).ok()?;
    let options = Options {
        cells: 20,
        ..Options::usual()
    };
    let kept = told_of_full(rt, &script, options)?;
    let told = kept.told();
    let line: &[u8] = if told.len() <= 1 && told.iter().all(|news| is_of_two(news)) {
        b"full, told once at most\n"
    } else {
        b"full, told too much\n"
    };
    Vec::from_slice(rt.alloc(), line).ok()
}

/// Whether a cycle of two tasks was told.
fn is_of_two(news: &News) -> bool {
    match news {
        News::Cycle(links) => links.items().len() == 2,
        News::Broken(_) | News::Value(_, _) => false,
    }
}
