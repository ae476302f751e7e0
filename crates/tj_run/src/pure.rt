//! Asks that need nothing of the table: the next ask itself, a print, and an end.
ghost use Rattle.std.specs.Prelude.{◌≡◌, ◌⊎◌, ◌<◌, IfErr, IfOk};
ghost use Rattle.tj_body.specs.Asks.{Ends};
ghost use Rattle.tj_body.specs.Programs.{program_of};
ghost use Rattle.tj_body.specs.declared.ask.Ask.TheVariants as ask;
ghost use Rattle.tj_run.specs.Workers.{table_program};
ghost use Rattle.tj_run.specs.Inner.Carried.{IsAsked, IsRunning, RunsTask};
ghost use Rattle.tj_run.specs.Inner.Going.{Goes, Stops};

use crate::next::Next;
use crate::pieces::fill_at;
use crate::why::Why;
use std::alloc::Global;
use tj_base::Pay;
use tj_body::{Answer, Ask, Body, points_in_rounds};
use tj_words::{Finish, Laid, Rec, WSeat};

/// The body is given the record's answer, and asks.
#[inline(always)]
pub(crate) fn next_ask<B: Body>(
    alloc: Global,
    laid: &Laid<B>,
    seat: &WSeat<B>,
    rec: &mut Rec<B>,
) -> Result<Ask<B>, Why>
    requires runs { RunsTask laid.now rec.old seat.now.me }
    requires running { IsRunning (table_program (program_of B.places B.awaits B.left B.asks B.then)
        laid.now) seat.now.me.0 rec.old }
    ensures memory { IfErr result (λ why. why ≡ Why.Memory) }
    ensures runs { IfOk result (λ _. RunsTask laid.now rec.new seat.now.me) }
    ensures asked { IfOk result (λ x. IsAsked (table_program
        (program_of B.places B.awaits B.left B.asks B.then) laid.now) seat.now.me.0 rec.new x) }
    ensures falls { IfOk result (λ x. Ends x ⊎ (B.left rec.new.body < B.left rec.old.body)) }
{
    let _ = laid;
    let _ = seat;
    points_in_rounds::<B>();
    let asked = rec.next(alloc)?;
    Ok(asked)
}

/// The task prints a number.
pub(crate) fn emit<B: Body>(
    laid: &Laid<B>,
    seat: &WSeat<B>,
    rec: &mut Rec<B>,
    number: i64,
) -> Result<Next, Why>
    requires runs { RunsTask laid.now rec.old seat.now.me }
    requires asked { IsAsked (table_program (program_of B.places B.awaits B.left B.asks B.then)
        laid.now) seat.now.me.0 rec.old (ask.Emit number) }
    ensures memory { IfErr result (λ why. why ≡ Why.Memory) }
    ensures goes { IfOk result (λ next. Goes (program_of B.places B.awaits B.left B.asks B.then)
        laid.now next rec.new seat.now.me.0 seat.now.me) }
    ensures same { rec.new.body ≡ rec.old.body }
{
    let _ = laid;
    let _ = seat;
    points_in_rounds::<B>();
    rec.print(number)?;
    rec.set_answer(Answer::Done);
    Ok(Next::Runs)
}

/// The task ends well.
#[inline(always)]
pub(crate) fn end_with<B: Body>(laid: &Laid<B>, seat: &WSeat<B>, rec: &Rec<B>, v: Pay) -> Next
    requires runs { RunsTask laid.now rec.now seat.now.me }
    requires asked { IsAsked (table_program (program_of B.places B.awaits B.left B.asks B.then)
        laid.now) seat.now.me.0 rec.now (ask.End v) }
    ensures ends { Stops result }
    ensures goes { Goes (program_of B.places B.awaits B.left B.asks B.then)
        laid.now result rec.now seat.now.me.0 seat.now.me }
{
    let _ = laid;
    let _ = seat;
    points_in_rounds::<B>();
    Next::Ends(Finish::Done(fill_at(rec, v)))
}
