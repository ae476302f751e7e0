//! A run of the plain core by hand: at which stage its tasks are, and how many loads their walks made.
use crate::shown::holds;
use std::process::Abort;
use tj_base::CellId;
use tj_core::{Core, Event, Stage};

const ROOT: CellId = CellId(0);

const PROMISE: CellId = CellId(1);

const WALKER: CellId = CellId(2);

const THIRD: CellId = CellId(3);

const LAST: CellId = CellId(4);

/// The walker reads the root as owner of the promise, and then that is handed on.
const EVENTS: &[Event] = &[
    Event::Make(ROOT),
    Event::Fork(ROOT),
    Event::Fork(ROOT),
    Event::Fork(ROOT),
    Event::Close(LAST, LAST),
    Event::Publish(ROOT, LAST),
    Event::LoadOthers(ROOT),
    Event::Settle(ROOT),
    Event::Raise(WALKER),
    Event::Publish(WALKER, PROMISE),
    Event::LoadCount(WALKER),
    Event::ReadOwner(WALKER),
    Event::ReadWait(WALKER),
    Event::Unwait(ROOT),
    Event::Hand(ROOT, PROMISE, THIRD),
    Event::ReadOwnerAgain(WALKER),
];

/// What a row shows, a cell, and the stage of the task that it is, while the walk goes on.
const STAGES: &[(&str, CellId, Option<Stage>)] = &[
    ("the root runs again", ROOT, Some(Stage::Running)),
    ("a promise is no task", PROMISE, None),
    ("it walks", WALKER, Some(Stage::Walking)),
    ("nothing was done by it", THIRD, Some(Stage::Fresh)),
];

/// Applies the event, and tells whether it is allowed.
fn is_applied(rt: &impl Abort, core: &mut Core, event: Event) -> bool {
    if core.applied() >= 100 {
        panic!(rt; "so many events");
    }
    core.apply(event).is_ok()
}

/// Asserts that each of the events is allowed.
fn are_applied(rt: &impl Abort, core: &mut Core, events: &[Event]) {
    for event in events {
        holds(rt, "an event is allowed", is_applied(rt, core, *event));
    }
}

#[test]
fn a_promise_is_handed_on_under_a_walk(rt: HostRuntime) {
    let Ok(mut core) = Core::new(rt.alloc(), 8) else {
        panic!(rt; "no memory");
    };
    are_applied(&rt, &mut core, EVENTS);
    for (shows, task, stage) in STAGES {
        holds(&rt, shows, core.stage(*task) == *stage);
    }
    holds(&rt, "three loads", core.loads(WALKER) == 3);
    let alarms = is_applied(&rt, &mut core, Event::Alarm(WALKER));
    holds(&rt, "there is no alarm", !alarms);
    let settles = is_applied(&rt, &mut core, Event::Settle(WALKER));
    holds(&rt, "it settles", settles && core.loads(WALKER) == 3);
}
