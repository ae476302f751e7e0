//! A watch of a promise by its name: what became of it at rest, and what was told of it before.
use crate::kept::Kept;
use crate::polled::Gives;
use std::alloc::Global;
use std::sync::Wait;
use std::thread::Threads;
use tj_base::{Name, Shown};
use tj_embed::{Options, script_in};
use tj_report::Became;
use tj_task::{Replay, TaskBody};
use tj_told::{Looks, News, watch_named, watch_script_named};

/// A task that sets the promise 0.1 of its maker.
const SETS: &[u8] = b"task main() {
  let p = new;
  fork giver(own p);
  let v = get p;
  return v;
}
task giver(p) {
  set p = 20;
  return 0;
}
";

/// What became of the promise 0.1 of the script.
pub(crate) fn watched<R: Wait + Threads + Sync + AllocGlobal>(rt: &R) -> Option<Vec<u8>> {
    let alloc = rt.alloc();
    let script = script_in(alloc, SETS).ok()?;
    let name = Name::root().child(alloc, 1).ok()?;
    let looks = Looks::Every(0);
    let kept = Kept::new(alloc);
    let (run, kept) = watch_script_named(rt, alloc, &script, Options::usual(), looks, &name, kept);
    let (_outcome, became) = run.ok()?;
    line_of(alloc, kept.told(), &became)
}

/// What became of the promise 0.1 of a task of one's own.
pub(crate) fn watched_plan<R: Wait + Threads + Sync + AllocGlobal>(rt: &R) -> Option<Vec<u8>> {
    let alloc = rt.alloc();
    let root = TaskBody::new(Replay::of(alloc, Gives::Root), 100);
    let name = Name::root().child(alloc, 1).ok()?;
    let looks = Looks::Every(0);
    let kept = Kept::new(alloc);
    let (run, kept) = watch_named(rt, alloc, root, Options::usual(), looks, &name, kept);
    let (_outcome, became) = run.ok()?;
    line_of(alloc, kept.told(), &became)
}

/// Whether it has 20, of which was told once at most.
fn line_of(alloc: Global, told: &[News], became: &Option<Became>) -> Option<Vec<u8>> {
    let once = told.len() <= 1 && told.iter().all(|news| tells_twenty(news));
    let line: &[u8] = if once && is_twenty(became) {
        b"0.1 has 20, told once at most\n"
    } else {
        b"0.1 has something else\n"
    };
    Vec::from_slice(alloc, line).ok()
}

/// Whether the value 20 was told.
fn tells_twenty(news: &News) -> bool {
    match news {
        News::Value(_, Shown::Num(n)) => *n == 20,
        _ => false,
    }
}

/// Whether it is the value 20.
fn is_twenty(became: &Option<Became>) -> bool {
    match became {
        Some(Became::Value(Shown::Num(n))) => *n == 20,
        _ => false,
    }
}
