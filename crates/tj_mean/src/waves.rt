//! The first round that has more cells than a limit. Rounds are gone through wave by wave: each
//! task is kept at the point where its history of the round stops. In the next round those go on
//! whose cell the last wave wrote, and those begin that come deep enough now. A wave takes up these
//! alone: they are on an agenda. What a wave writes is seen from the next one on. Where more tasks
//! than the limit are to begin in the next round, it is full, and none of them is needed.
ghost use Rattle.std.specs.Prelude.{ℕ, ◌≡◌, ◌<◌, ◌≤◌, [], get_or, length, suc, IfNone, IfOk};
ghost use Rattle.std.specs.Prelude.{IfSome};
ghost use Rattle.tj_base.specs.declared.cell.TheConstants.{MAX_CELLS};
ghost use Rattle.tj_body.specs.Asks.{IsFresh};
ghost use Rattle.tj_body.specs.Points.{IsGood};
ghost use Rattle.tj_body.specs.Programs.{program_of, rules_of};
ghost use Rattle.tj_body.specs.Rounds as rounds;
ghost use Rattle.tj_mean.specs.FirstFull.{IsFirstFull};
ghost use Rattle.tj_mean.specs.Inner.Assignments.{assignment_in};
ghost use Rattle.tj_mean.specs.Inner.Waves.{IsTakenUp, IsWaveAt, IsWaveDone};

use crate::agenda::Agenda;
use crate::handed_on::{HandedOn, enter_all, hand_on, start_all};
use crate::history_steps::go_to_stop;
use crate::name_map::NameMap;
use crate::rounds::first_points;
use std::alloc::Global;
use tj_base::{Name, Oom};
use tj_body::{Body, Entry, Point, Task};

/// The first round with more cells than the limit, and the entries of the round before.
#[derive(Drop)]
pub struct FullRound {
    pub number: u32,
    pub given: NameMap<Entry>,
}

/// The first round that has more than `cells` cells, if there is one.
pub fn first_full<B: Body>(
    alloc: Global,
    root: &B,
    cells: u32,
    strict: bool,
) -> Result<Option<FullRound>, Oom>
    requires root { IsFresh B.places B.awaits B.left 1 root.now }
    requires cells { (0 < cells) × (cells ≤ MAX_CELLS) }

    // A round comes only if it is the first that has more than `cells` cells.
    ensures some { let p = program_of B.places B.awaits B.left B.asks B.then strict root.now in
        IfOk result (λ found. IfSome found (λ round. IsFirstFull p cells round.number)) }
    // None comes only where the meaning fits in `cells` cells.
    ensures none { let p = program_of B.places B.awaits B.left B.asks B.then strict root.now in
        IfOk result (λ found. IfNone found (¬ rounds.IsFull p cells)) }
    // With a round come the entries of the round before.
    ensures entries { let p = program_of B.places B.awaits B.left B.asks B.then strict root.now in
        IfOk result (λ found. IfSome found (λ round. (n : ℕ) × (round.number ≡ suc n)
        × (assignment_in round.given ≡ rounds.given p n))) }
{
    let mut given = NameMap::new(alloc);
    let mut points = first_points(alloc, root)?;
    let mut agenda = Agenda::new(alloc);
    let mut left = cells as usize;
    let mut round = 0;
    while round <= 2 * cells {
        let found = wave(
            alloc,
            root,
            cells,
            strict,
            round,
            &given,
            &mut points,
            &mut agenda,
            &mut left,
        )?;
        round += 1;
        let Some(handed) = found else {
            return Ok(Some(FullRound {
                number: round,
                given,
            }));
        };
        agenda.wake(handed.writes.as_slice())?;
        enter_all(&mut given, handed.writes)?;
        if handed.children.len() > cells as usize {
            return Ok(Some(FullRound {
                number: round + 1,
                given,
            }));
        }
        start_all(alloc, &mut points, handed.children)?;
    }
    Ok(None)
}

/// The tasks go on to where they stop in the round after this one. None: that has more cells than
/// the limit.
fn wave<B: Body>(
    alloc: Global,
    root: &B,
    cells: u32,
    strict: bool,
    round: u32,
    given: &NameMap<Entry>,
    points: &mut Vec<Point<B>>,
    agenda: &mut Agenda,
    left: &mut usize,
) -> Result<Option<HandedOn<B>>, Oom>
    requires root { IsFresh B.places B.awaits B.left 1 root.now }
    requires cells { cells ≤ MAX_CELLS }
    requires begins { let p = program_of B.places B.awaits B.left B.asks B.then strict root.now in
        IsWaveAt p cells round (assignment_in given.now) agenda.old left.old points.old.items [] [] }
    ensures full { let p = program_of B.places B.awaits B.left B.asks B.then strict root.now in
        IfOk result (λ handed. IfNone handed (cells < length (rounds.cells p (suc round)))) }
    ensures done { let p = program_of B.places B.awaits B.left B.asks B.then strict root.now in
        IfOk result (λ handed. IfSome handed (λ h. IsWaveDone p cells round
        (assignment_in given.now) agenda.new left.new points.new.items h.children.items
        h.writes.items)) }
{
    let mut later = Vec::new(alloc);
    let mut writes = Vec::new(alloc);
    while points.len() <= *left {
        let Some(at) = agenda.next_index(points.len()) else {
            return Ok(Some(HandedOn {
                children: later,
                writes,
            }));
        };
        let room = *left + points[at].promises.items().len();
        take_up(
            alloc,
            points,
            at,
            given,
            strict,
            cells,
            round,
            &mut later,
            &mut writes,
        )?;
        let made = points[at].promises.items().len();
        if made > room {
            return Ok(None);
        }
        *left = room - made;
        agenda.stop(alloc, at, &points[at].stage)?;
    }
    Ok(None)
}

/// The task with this index goes on to where it stops. Its children begin, or they are for the next
/// round, of which no more are kept once they are more than the limit.
fn take_up<B: Body>(
    alloc: Global,
    points: &mut Vec<Point<B>>,
    at: usize,
    given: &NameMap<Entry>,
    strict: bool,
    cells: u32,
    round: u32,
    later: &mut Vec<Task<B>>,
    writes: &mut Vec<(Name, Entry)>,
) -> Result<(), Oom>
    requires there { at < length points.old.items }
    requires good { let rules = rules_of B.places B.awaits B.left B.asks B.then strict in
        (d : Point B) → IsGood rules (get_or points.old.items at d) }
    ensures { let rules = rules_of B.places B.awaits B.left B.asks B.then strict in
        IfOk result (λ _. IsTakenUp rules (assignment_in given.now) cells round at
        points.old.items points.new.items later.old.items later.new.items writes.old.items
        writes.new.items) }
{
    go_to_stop(alloc, &mut points[at], given, strict)?;
    let mut handed = hand_on(alloc, &mut points[at]);
    writes.append(&mut handed.writes)?;
    if points[at].name.depth() <= round as usize {
        start_all(alloc, points, handed.children)?;
        return Ok(());
    }
    if later.len() > cells as usize {
        return Ok(());
    }
    later.append(&mut handed.children)?;
    Ok(())
}
