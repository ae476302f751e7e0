//! A run whose deadlocks are told as they happen.
ghost use Rattle.std.specs.Prelude.{◌≡◌, ◌≢◌, ◌⊎◌, ◌<◌, ◌≤◌, ◌*◌, ◌++◌, ◌∷◌, List, [], All, IfErr, IfOk, Err, length};
ghost use Rattle.std.specs.Thread.{IsSync};
ghost use denote.Param.Send.{IsSend};
ghost use Rattle.tj_body.specs.Asks.{IsFresh};
ghost use Rattle.tj_body.specs.Programs.{program_of};
ghost use Rattle.tj_body.specs.Rounds.{IsFull, meaning};
ghost use Rattle.tj_embed.specs.Limits.{AreLimits};
ghost use Rattle.tj_mean.specs.Outcomes.{IsOutcome};
ghost use Rattle.tj_told.specs.declared.news.News.{News};
ghost use Rattle.tj_run.specs.Leaving.{HasRested, Leaves};
ghost use Rattle.tj_run.specs.Runs.{HasLots, RestsAt};
ghost use Rattle.tj_run.specs.Workers.{IsFree, table_program};
ghost use Rattle.tj_told.specs.EndedNews.{IsEarly};
ghost use Rattle.tj_told.specs.Hearing.{Hears, HearsOn, IsHeardUntil, IsStoppedOn};
ghost use Rattle.tj_told.specs.Observers.{Observes};
ghost use Rattle.tj_told.specs.SeenNews.{AreSeen, AreSeenBy, HasStopped};
ghost use Rattle.tj_told.specs.ToldLoads.{StopsLast};
ghost use Rattle.tj_told.specs.ToldNews.{AreAnswers, AreTold};
ghost use Rattle.std.specs.Prelude.{Option, None, Some};
ghost use Rattle.tj_log.specs.Shown.{SeatShown};
ghost use Rattle.tj_record.specs.declared.record.Rec.{Rec};
ghost use Rattle.tj_words.specs.declared.view.View.{View};
ghost use Rattle.tj_words.specs.AtRest.EndedRuns.{EndsRun, RestEndsRun};
ghost use Rattle.tj_words.specs.Law.{IsRooted};
ghost use Rattle.tj_words.specs.LawParts.FirstState.{first_view};
ghost use Rattle.tj_words.specs.LawParts.Lots.{least_lot};
ghost use Rattle.tj_words.specs.LawParts.TreeWords.{IsCell};
ghost use Rattle.tj_body.specs.History.{to_task};
ghost use Rattle.tj_words.specs.SeatViews.SeatSteps.{IsSeatOf, SeatMe};
ghost use Rattle.tj_words.specs.declared.closed.RestCell.{RestCell};
ghost use Rattle.tj_words.specs.SeatViews.Views.{IsIdle, both, left_half};

use crate::fault::ToldFault;
use crate::listener::Listener;
use crate::looks::{Looks, Watch};
use crate::observer::{Sight, observe};
use crate::settling::tell_rest;
use crate::telling::Telling;
use std::alloc::Global;
use std::sync::Wait;
use std::thread::{Parker, Threads, join};
use tj_base::{CellId, Oom};
use tj_body::{Body, meaning_is_last};
use tj_embed::Options;
use tj_laws::every_moment;
use tj_mean::Outcome;
use tj_ports::{Gate, OpenGate};
use tj_ready::{NewestFirstPool, Pool};
use tj_report::outcome_of;
use tj_run::{Left, Why, work_all};
use tj_words::{Laid, RestWords, WSeat};

/// Runs a root and all that it forks, as `tj_embed::run_outcome` does, and tells the listener of each
/// cycle of waits, as it happens: beside the workers an observer looks for tasks that have alarmed, as
/// often as `looks` says. A cycle that it didn't see is told at rest. A promise or a result that it
/// sees broken is told, too. When the workers have ended, they ring a bell, so an observer that sleeps
/// holds nobody up. The listener comes back. That the call returns isn't proved.
pub fn run_told<B: Body, T: Listener, R: Wait + Threads + Sync>(
    rt: &R,
    alloc: Global,
    root: B,
    options: Options,
    looks: Looks,
    listener: T,
) -> (Result<Outcome, ToldFault>, T)
    requires limits { AreLimits options }
    requires root { IsFresh B.places B.awaits B.left 1 root }
    // The outcome is that of the meaning of the root.
    ensures outcome { let p = program_of B.places B.awaits B.left B.asks B.then options.strict root
        in IfOk result.0 (IsOutcome (meaning p options.cells)) }
    // Where there is an outcome, the meaning isn't full.
    ensures fits { let p = program_of B.places B.awaits B.left B.asks B.then options.strict root
        in IfOk result.0 (λ _. ¬ IsFull p options.cells) }
    // With an outcome, the cycles that the listener has heard of are those of the outcome, all of
    // them, each once; each cell that it was told to be broken is so by the outcome, and was told
    // once; no value was told; and it answered On to each call. So what is told early is never
    // taken back.
    ensures told { IfOk result.0 (λ outcome. (told : List News) × Hears T.tells told listener
        result.1 × AreTold told outcome × AreAnswers None None told) }
    // With a fault, it answered Stop to the last call where that is Stopped, and else On to each, and
    // nothing was told twice. What was told stood in the table at the end of its run: each cycle, and
    // each cell that was told to be broken. Or, where the fault came at rest, what was told is of the
    // outcome of the meaning, which isn't full; so after Full it stood. Where it is Stopped and what
    // was told isn't said to be of the outcome, the last step of a seat of that run stored 2 in STOP.
    ensures early { IfErr result.0 (λ fault. (told : List News)
        × IsHeardUntil T.tells fault told listener result.1 × IsEarly
        (program_of B.places B.awaits B.left B.asks B.then) options.cells options.strict root None
        fault told) }
    // Full comes only where the meaning is full.
    ensures full { let p = program_of B.places B.awaits B.left B.asks B.then options.strict root
        in result.0 ≡ Err ToldFault.Full → IsFull p options.cells }
{
    every_moment::<B>();
    meaning_is_last::<B>();
    let telling = Telling::new(alloc, listener);
    let (rest, telling) = run_beside::<B, NewestFirstPool, OpenGate, T, R>(
        rt,
        alloc,
        root,
        options,
        &OpenGate,
        Watch {
            looks,
            wanted: None,
        },
        telling,
    );
    let mut telling = telling;
    let rest = match rest {
        Ok(rest) => rest,
        Err(why) => return (Err(why), telling.listener),
    };
    let outcome = match outcome_of(alloc, &rest) {
        Ok(outcome) => outcome,
        Err(Oom) => return (Err(ToldFault::Oom), telling.listener),
    };
    match tell_rest(alloc, &outcome.cycles, &mut telling) {
        Ok(()) => (Ok(outcome), telling.listener),
        Err(fault) => (Err(fault), telling.listener),
    }
}

// The workers, and an observer beside them.
pub(crate) fn run_beside<B: Body, P: Pool, G: Gate, T: Listener, R: Wait + Threads + Sync>(
    rt: &R,
    alloc: Global,
    root: B,
    options: Options,
    gate: &G,
    watch: Watch,
    telling: Telling<T>,
) -> (Result<RestWords<B>, ToldFault>, Telling<T>)
    requires limits { AreLimits options }
    requires root { IsFresh B.places B.awaits B.left 1 root }
    ensures rest { IfOk result.0 (RestsAt
        (program_of B.places B.awaits B.left B.asks B.then) root options.cells options.strict) }
    ensures seen { telling.news ≡ [] → IfOk result.0 (λ rest.
        (seat : SeatShown (Option (Rec B)) (View B)) × EndsRun (program_of B.places B.awaits B.left
        B.asks B.then) options.cells options.strict root seat rest.cells rest.records
        × AreSeenBy watch.wanted seat result.1.news) }
    ensures early { telling.news ≡ [] → IfErr result.0 (λ fault. (result.1.news ≡ [])
        ⊎ ((seat : SeatShown (Option (Rec B)) (View B)) × (cells : List RestCell)
        × (records : List (Option (Rec B))) × EndsRun (program_of B.places B.awaits B.left B.asks
        B.then) options.cells options.strict root seat cells records
        × AreSeenBy watch.wanted seat result.1.news
        × (fault ≡ ToldFault.Stopped → HasStopped seat))) }
    ensures goes { telling.news ≡ [] → HearsOn T.tells telling result.1
        (result.0 ≢ Err ToldFault.Stopped) }
    ensures stops { telling.news ≡ [] → IsStoppedOn T.tells telling result.1
        (result.0 ≡ Err ToldFault.Stopped) }
    ensures full { result.0 ≡ Err ToldFault.Full → IsFull
        (program_of B.places B.awaits B.left B.asks B.then options.strict root) options.cells }
{
    let (laid, seat, ends) = match make_ready::<B, P, R>(rt, alloc, root, options) {
        Ok(made) => made,
        Err(Oom) => return (Err(ToldFault::Oom), telling),
    };
    let (seat, left, telling, sight) = work_told::<B, P, G, T, R>(
        rt, alloc, &laid, seat, ends, gate, watch, telling,
    );
    (ended(laid, seat, left, sight), telling)
}

// The table with its first seat, and the ends of the pool; the root is in the first one.
fn make_ready<B: Body, P: Pool, R: Wait>(
    rt: &R,
    alloc: Global,
    root: B,
    options: Options,
) -> Result<(Laid<B>, WSeat<B>, Vec<P>), Oom>
    requires limits { AreLimits options }
    requires root { IsFresh B.places B.awaits B.left 1 root }
    ensures cells { IfOk result (λ made. made.0.cells ≡ options.cells) }
    ensures strict { IfOk result (λ made. made.0.strict ≡ options.strict) }
    ensures root { IfOk result (λ made. made.0.root.value ≡ root) }
    ensures table { IfOk result (λ made. IsSeatOf made.0 made.1) }
    ensures view { IfOk result (λ made. made.1.me ≡ (
      first_view
          options.cells root options.strict,
      [],
    )) }
    ensures workers { IfOk result (λ made. length made.2.items ≡ options.workers) }
    ensures pools { IfOk result (λ made. All (λ end. P.limit end ≡ options.cells) made.2.items) }
{
    let mut ends = P::make(rt, alloc, options.workers, options.cells)?;
    let (laid, seat) = Laid::new(alloc, options.cells, root, options.strict)?;
    if let Some(first) = ends.as_mut_slice().first_mut() {
        first.put(rt, alloc, CellId(0))?;
    }
    Ok((laid, seat, ends))
}

// What a run came to whose workers left like this, and whose observer left like that.
fn ended<B: Body>(
    laid: Laid<B>,
    seat: WSeat<B>,
    left: Left,
    sight: Sight,
) -> Result<RestWords<B>, ToldFault>
    requires table { IsSeatOf laid seat }
    requires rested { left ≡ Left.Rested → HasRested
        (first_view laid.cells laid.root.value laid.strict) seat.me }
    ensures rest { IfOk result (RestsAt (program_of B.places B.awaits B.left B.asks B.then)
        laid.root.value laid.cells laid.strict) }
    ensures ends { IfOk result (RestEndsRun (program_of B.places B.awaits B.left B.asks B.then)
        laid.cells laid.strict laid.root.value seat) }
    ensures ended { IfErr result (λ fault. (cells : List RestCell)
        × (records : List (Option (Rec B))) × EndsRun (program_of B.places B.awaits B.left B.asks
        B.then) laid.cells laid.strict laid.root.value seat cells records) }
    ensures stopped { result ≡ Err ToldFault.Stopped → sight ≡ Sight.Stops }
    ensures other { result ≢ Err ToldFault.Stopped → sight ≢ Sight.Stops }
    ensures full { result ≡ Err ToldFault.Full → left ≡ Left.Stopped Why.Full }
{
    match fault_of(left, sight) {
        None => Ok(laid.rest(seat)),
        Some(fault) => {
            drop(laid.leave(seat));
            Err(fault)
        }
    }
}

// Why such a run has no outcome, if it has none.
fn fault_of(left: Left, sight: Sight) -> Option<ToldFault>
    ensures rested { result ≡ None → left ≡ Left.Rested }
    ensures stopped { result ≡ Some ToldFault.Stopped → sight ≡ Sight.Stops }
    ensures other { result ≢ Some ToldFault.Stopped → sight ≢ Sight.Stops }
    ensures full { result ≡ Some ToldFault.Full → left ≡ Left.Stopped Why.Full }
{
    match (left, sight) {
        (_, Sight::Stops) => Some(ToldFault::Stopped),
        (_, Sight::Wants) => Some(ToldFault::Oom),
        (Left::Rested, _) => None,
        (Left::Stopped(Why::Full), _) => Some(ToldFault::Full),
        (Left::Stopped(Why::Memory), _) => Some(ToldFault::Oom),
    }
}

// The workers, and beside them the observer, whose seat is taken in again. Where no thread can be made
// for the observer, it comes after the workers. At their end the workers ring the bell by which it
// sleeps.
fn work_told<B: Body, P: Pool, G: Gate, T: Listener, R: Wait + Threads + Sync>(
    rt: &R,
    alloc: Global,
    laid: &Laid<B>,
    seat: WSeat<B>,
    ends: Vec<P>,
    gate: &G,
    watch: Watch,
    telling: Telling<T>,
) -> (WSeat<B>, Left, Telling<T>, Sight)
    requires table { IsSeatOf laid.now seat }
    requires free { IsFree laid.now seat.me }
    requires rooted { IsRooted (table_program (program_of B.places B.awaits B.left B.asks B.then)
        laid.now) }
    requires crosses { IsSync R.row × IsSync G.row × IsSend B.row × IsSend P.row × IsSend T.row }
    requires pools { All (λ end. P.limit end ≡ laid.now.cells) ends.items }
    requires lots { HasLots (length ends.items) (left_half seat.me.0) }
    requires room { 2 * least_lot ≤ seat.me.0.lot }
    requires root { IsCell seat.me.0.born 0 (to_task []) }
    ensures table { result.0.table_id ≡ seat.table_id }
    ensures left { (me : SeatMe B) × Leaves (program_of B.places B.awaits B.left B.asks B.then)
        result.1 seat.me.0 me × (result.1 ≡ Left.Rested → result.0.me ≡ me) }
    ensures seen { telling.news ≡ [] → AreSeenBy watch.wanted result.0 result.2.news }
    ensures goes { telling.news ≡ [] → HearsOn T.tells telling result.2 (result.3 ≢ Sight.Stops) }
    ensures stops { telling.news ≡ [] → IsStoppedOn T.tells telling result.2 (result.3 ≡ Sight.Stops) }
    ensures stored { result.3 ≢ Sight.Ended → HasStopped result.0 }
{
    let (mine, theirs) = laid.split(seat);
    let bell = Parker::new();
    let bell = &bell;
    let watching = move || -> (WSeat<B>, Telling<T>, Sight)
        requires { Observes laid.now theirs }
        ensures { (result.0.table_id ≡ theirs.table_id) × IsIdle result.0.me.0
            × (result.0.me.1 ≡ []) × (result.0.me.0.lot ≡ theirs.me.0.lot)
            × (telling.news ≡ [] → AreSeen watch.wanted result.0 result.1.met.items
            result.1.news)
            × (telling.news ≡ [] → HearsOn T.tells telling result.1 (result.2 ≢ Sight.Stops))
            × (telling.news ≡ [] → IsStoppedOn T.tells telling result.1 (result.2 ≡ Sight.Stops))
            × (result.2 ≢ Sight.Ended → StopsLast result.0.log) }
    { observe(rt, alloc, laid, theirs, watch, bell, telling) };
    let working = move || -> (WSeat<B>, Left)
        requires { IsSync R.row × IsSync G.row × IsSend B.row × IsSend P.row
            × IsSeatOf laid.now mine × IsFree laid.now mine.me
            × IsRooted (table_program (program_of B.places B.awaits B.left B.asks B.then) laid.now)
            × All (λ end. P.limit end ≡ laid.now.cells) ends.items
            × HasLots (length ends.items) mine.me.0 }
        ensures { (result.0.table_id ≡ mine.table_id) × Leaves
            (program_of B.places B.awaits B.left B.asks B.then) result.1 mine.me.0 result.0.me }
    {
        let worked = work_all::<B, P, G, R>(rt, alloc, laid, mine, ends, gate);
        bell.unpark();
        worked
    };
    let (watched, worked) = join(rt, watching, working);
    let (theirs, telling, sight) = watched;
    let (seat, left) = take_in(laid, worked.0, worked.1, theirs);
    (seat, left, telling, sight)
}

// The seat of workers at rest takes in that of the observer; where they were stopped, it is left alone.
fn take_in<B: Body>(
    laid: &Laid<B>,
    worked: WSeat<B>,
    left: Left,
    watched: WSeat<B>,
) -> (WSeat<B>, Left)
    requires table { IsSeatOf laid.now worked }
    requires other_table { IsSeatOf laid.now watched }
    requires rested { left ≡ Left.Rested → IsIdle worked.me.0 × (worked.me.1 ≡ []) }
    requires idle { IsIdle watched.me.0 }
    requires slots { watched.me.1 ≡ [] }
    ensures table { result.0.table_id ≡ laid.now.table.shared.table_id }
    ensures rested { result.1 ≡ Left.Rested → (left ≡ Left.Rested)
        × (result.0.me ≡ (both worked.me.0 watched.me.0, [])) × IsIdle result.0.me.0 }
    ensures took { result.1 ≡ Left.Rested
        → result.0.took ≡ worked.took ++ watched.log ∷ watched.took }
    ensures stopped { (why : Why) → result.1 ≡ Left.Stopped why
        → (result.0 ≡ watched) × (left ≡ Left.Stopped why) }
{
    match left {
        Left::Stopped(why) => (watched, Left::Stopped(why)),
        Left::Rested => (laid.merge(worked, watched), Left::Rested),
    }
}
