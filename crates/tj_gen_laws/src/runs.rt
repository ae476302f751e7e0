//! The laws of runs of the generated script. They stand over the definitions alone, so the functions do
//! nothing: who calls one may rest on its clauses.
ghost use Rattle.tj_gen_laws.specs.GeneratedRuns.{HoldsOfRuns, IsClean, MainEnds, MainFails};
ghost use Rattle.tj_gen_laws.specs.GeneratedRuns.{TakesCells, but_one, main_statements};

use tj_body::{full_exactly, point_counts_made, points_in_rounds, rest_is_meaning, rounds_grow};
use tj_command::one_script_or_fault;
use tj_eval::ScriptBody;
use tj_modes::generated_text_is_a_script;

/// Runs of the generated script of each size from 1 to 4,000, under either rule.
pub fn generated_runs()
    // Where each task may begin 3 · size + 7 statements or more, the run of the generated script
    // needs more cells than it may have exactly where those are fewer than 2 · size + 2.
    ensures cells { HoldsOfRuns but_one TakesCells }

    // Where each task may begin 3 · size + 8 statements or more, and the run may have 2 · size + 2
    // cells or more, `main` prints size · (size + 1) / 2 and ends with it, and makes 3 · size + 8
    // statements.
    ensures ends { HoldsOfRuns main_statements MainEnds }

    // There the outcome is clean: no task fails, owes or waits, and no cycle stands.
    ensures clean { HoldsOfRuns main_statements IsClean }

    // Where each task may begin one statement less, `main` prints the same, and fails with Steps at
    // its last statement.
    ensures fails { HoldsOfRuns but_one MainFails }
{
    one_script_or_fault();
    generated_text_is_a_script();
    points_in_rounds::<ScriptBody<'static>>();
    rest_is_meaning::<ScriptBody<'static>>();
    full_exactly::<ScriptBody<'static>>();
    rounds_grow::<ScriptBody<'static>>();
    point_counts_made::<ScriptBody<'static>>();
}
