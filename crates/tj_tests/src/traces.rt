//! A trace by hand from the rules: what became of each task, what it printed, holds and owes, where it
//! stands and where its ask begins, and what made and owns what.
ghost use Rattle.std.specs.Prelude.{List};
ghost use Rattle.tj_lex.specs.declared.token.Tok.{Tok};
ghost use Rattle.tj_syntax.specs.Faults.{IsScript};
ghost use Rattle.tj_syntax.specs.View as view;

use crate::printed_names::{is_name, name};
use crate::shown::holds;
use std::alloc::Global;
use std::process::Abort;
use tj_base::Sort::{Promise, Task};
use tj_base::{Cause, Name, Shown, Sort};
use tj_body::{Answer, Ask, Body};
use tj_eval::{Sizes, placed_main};
use tj_lex::{MAX_TEXT, Place, tokens};
use tj_mean::Ending;
use tj_syntax::{Script, ScriptPlaces, places, script_in};
use tj_trace::{Maker, TraceLine, TraceLines, ask_spot, line_of, maker_of, owner_of, spot, trace};

/// Forks in a loop, a cycle of two, a refused fork, and letters of two bytes.
const SCRIPT: &str = "task left(mine, other) {\n\tlet z = get other; set mine = z;\n}\n\
    task main() {\n  let p = new; let q = new;\n  let k = 2;\n  while k {\n    \
    while k > 1 { k = k - 1; print k; }\n    \
    if k { fork mid(own p, q); if 0 { print 8; } else { fork left(own q, p); }\n    \
    } else { print 9; }\n    k = k * 3 - 3;\n  }\n  let r = new; # é\n  \
    let s = fork faulty(own r);\n  let o = join s or 5; print o;\n  \
    if o { let u = get r or -me; }\n  print 3;\n}\n\
    task mid(m, n) {\n  fork left(own m, n);\n}\n\
    task faulty(x) {\n  \
    let y = 4; while y { y = y - 1; if y == 2 { fork take(own x, own x); } }\n}\n\
    task take(a, b) { }\n";

/// What becomes of a task, with names as numbers.
enum End {
    Done(i64),
    Waits(&'static [u32]),
    Kind,
    Owner(&'static [u32]),
}

/// What a statement made, the declaration that it is part of, and its number there.
type Made = (Sort, usize, usize);

/// A task's line, with the lines and columns of the statement at which it stands and of its ask.
struct Row {
    name: &'static [u32],
    prints: &'static [i64],
    end: End,
    owes: &'static [&'static [u32]],
    holds: &'static [&'static [u32]],
    stands: (usize, usize),
    begins: (u32, u32),
    asks: Option<(u32, u32)>,
    made: &'static [Made],
}

const ROWS: &[Row] = &[
    Row {
        name: &[],
        prints: &[1, 5],
        end: End::Kind,
        owes: &[],
        holds: &[],
        stands: (1, 19),
        begins: (16, 10),
        asks: Some((16, 18)),
        made: &[
            (Promise, 1, 0),
            (Promise, 1, 1),
            (Task, 1, 8),
            (Task, 1, 11),
            (Promise, 1, 14),
            (Task, 1, 15),
        ],
    },
    Row {
        name: &[3],
        prints: &[],
        end: End::Done(0),
        owes: &[],
        holds: &[],
        stands: (2, 1),
        begins: (21, 1),
        asks: None,
        made: &[(Task, 2, 0)],
    },
    Row {
        name: &[3, 1],
        prints: &[],
        end: End::Waits(&[2]),
        owes: &[],
        holds: &[&[1]],
        stands: (0, 0),
        begins: (2, 2),
        asks: Some((2, 10)),
        made: &[],
    },
    Row {
        name: &[4],
        prints: &[],
        end: End::Waits(&[1]),
        owes: &[],
        holds: &[&[2]],
        stands: (0, 0),
        begins: (2, 2),
        asks: Some((2, 10)),
        made: &[],
    },
    Row {
        name: &[6],
        prints: &[],
        end: End::Owner(&[5]),
        owes: &[&[5]],
        holds: &[],
        stands: (3, 4),
        begins: (23, 47),
        asks: Some((23, 47)),
        made: &[],
    },
];

/// A name, whether it is a task's, the task that owned it where that stopped, and what made it.
type Thing = (&'static [u32], bool, Option<&'static [u32]>, Option<Made>);

/// The last one is behind the last that was made.
const THINGS: &[Thing] = &[
    (&[], true, None, None),
    (&[1], false, Some(&[3, 1]), Some((Promise, 1, 0))),
    (&[2], false, Some(&[4]), Some((Promise, 1, 1))),
    (&[3], true, None, Some((Task, 1, 8))),
    (&[3, 1], true, Some(&[3, 1]), Some((Task, 2, 0))),
    (&[5], false, Some(&[6]), Some((Promise, 1, 14))),
    (&[6], true, None, Some((Task, 1, 15))),
    (&[7], false, None, None),
];

fn are_names(names: &[Name], numbers: &[&[u32]]) -> bool {
    for (name, numbers) in names.iter().zip(numbers) {
        if !is_name(name, numbers) {
            return false;
        }
    }
    names.len() == numbers.len()
}

fn is_end(ending: &Ending, end: &End) -> bool {
    match (ending, end) {
        (Ending::Done(Shown::Num(n)), End::Done(m)) => *n == *m,
        (Ending::Waits(name), End::Waits(numbers)) => is_name(name, numbers),
        (Ending::Failed(Cause::Kind), End::Kind) => true,
        (Ending::Failed(Cause::Owner(name)), End::Owner(numbers)) => is_name(name, numbers),
        _ => false,
    }
}

fn is_at(found: Option<Place>, wanted: Option<(u32, u32)>) -> bool {
    match (found, wanted) {
        (Some(place), Some(at)) => (place.line, place.column) == at,
        (None, None) => true,
        _ => false,
    }
}

fn is_maker(found: Option<Maker>, wanted: Option<Made>) -> bool {
    match (found, wanted) {
        (Some(maker), Some(made)) => (maker.sort, maker.decl, maker.at) == made,
        (None, None) => true,
        _ => false,
    }
}

fn are_made(makers: &[Maker], made: &[Made]) -> bool {
    for (maker, made) in makers.iter().zip(made) {
        if !is_maker(Some(*maker), Some(*made)) {
            return false;
        }
    }
    makers.len() == made.len()
}

/// Whether the line tells of its task what the row does.
fn is_told(line: &TraceLine, row: &Row, places: &ScriptPlaces) -> bool {
    is_name(&line.line.name, row.name)
        && line.line.prints.items() == row.prints
        && is_end(&line.line.ending, &row.end)
        && are_names(line.line.owes.items(), row.owes)
        && are_names(line.holds.items(), row.holds)
        && (line.decl, line.at) == row.stands
        && is_at(spot(places, line.decl, line.at), Some(row.begins))
        && is_at(ask_spot(places, line.decl, line.at), row.asks)
        && are_made(line.makers.items(), row.made)
}

/// Asserts what the lines tell of the thing.
fn is_found(rt: &impl Abort, alloc: Global, lines: &[TraceLine], thing: &Thing) {
    let name = name(rt, alloc, thing.0);
    holds(rt, "its line", line_of(lines, &name).is_some() == thing.1);
    let is_owner = match (owner_of(lines, &name), thing.2) {
        (Some(line), Some(owner)) => is_name(&line.line.name, owner),
        (None, None) => true,
        _ => false,
    };
    holds(rt, "its owner", is_owner);
    holds(
        rt,
        "what made it",
        is_maker(maker_of(lines, &name), thing.3),
    );
}

/// The script that the text is.
pub(crate) fn script(rt: &impl Abort, alloc: Global, text: &str) -> Script
    ensures { (tokens : List Tok) × IsScript tokens (view.script result) }
{
    match script_in(alloc, text.as_bytes()) {
        Ok(script) => script,
        Err(_) => panic!(rt; "no script"),
    }
}

/// Where the parts of the script stand.
fn places_of(rt: &impl Abort, alloc: Global, text: &str) -> ScriptPlaces {
    if text.len() > MAX_TEXT {
        panic!(rt; "too long");
    }
    let Ok(list) = tokens(alloc, text.as_bytes()) else {
        panic!(rt; "no tokens");
    };
    let Ok(places) = places(alloc, list.as_slice()) else {
        panic!(rt; "no memory");
    };
    places
}

/// The trace of the script, whose `main` first makes a promise.
fn traced(rt: &impl Abort, alloc: Global, text: &str) -> TraceLines {
    let script = script(rt, alloc, text);
    let Ok(sizes) = Sizes::of(alloc, &script) else {
        panic!(rt; "no memory");
    };
    let Ok(mut root) = placed_main(alloc, &script, &sizes, 1000) else {
        panic!(rt; "no memory");
    };
    let Ok(lines) = trace(alloc, &root, 100, false) else {
        panic!(rt; "no trace");
    };
    let Ok(ask) = root.next(alloc, Answer::Start) else {
        panic!(rt; "no memory");
    };
    holds(
        rt,
        "the first ask",
        matches!(ask, Ask::New) && root.at() == 0,
    );
    lines
}

#[test]
fn a_trace_is_told(rt: HostRuntime) {
    let places = places_of(&rt, rt.alloc(), SCRIPT);
    let lines = traced(&rt, rt.alloc(), SCRIPT);
    holds(&rt, "so many tasks", lines.items().len() == ROWS.len());
    for (line, row) in lines.items().iter().zip(ROWS) {
        holds(&rt, "a task's line", is_told(line, row, &places));
    }
    for thing in THINGS {
        is_found(&rt, rt.alloc(), lines.items(), thing);
    }
}
