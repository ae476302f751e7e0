//! Laws of scripts without `get`. They speak of the definitions alone.
ghost use Rattle.std.specs.Prelude.{ℕ, Bool, IsTrue, List};
ghost use Rattle.tj_body.specs.Programs.{program_of, rules_of};
ghost use Rattle.tj_body.specs.KeptFacts.{HoldsInRounds};
ghost use Rattle.tj_body.specs.SeenAs.{AreSeenAs};
ghost use Rattle.tj_eval.specs.Bodies.{script_places, script_awaits, script_left};
ghost use Rattle.tj_eval.specs.Stands.{erased, placed_places, placed_awaits, placed_left};
ghost use Rattle.tj_eval.specs.Stands.{placed_asks, placed_then, ForkStandsRight, PlacedState};
ghost use Rattle.tj_eval.specs.Stands.{StandsRight};
ghost use Rattle.tj_eval.specs.AskedAt.{StandsAtItsAsk};
ghost use Rattle.tj_body.specs.declared.ask.Answer.{Answer};
ghost use Rattle.tj_lex.specs.declared.token.Tok.{Tok};
ghost use Rattle.tj_syntax.specs.Faults.{IsScript};
ghost use Rattle.tj_syntax.specs.Trees.{Task};
ghost use Rattle.tj_eval.specs.Bodies.{script_asks, script_then, IsMainBody};
ghost use Rattle.tj_eval.specs.Gets.{AreWithoutGet, asks_no_get, script_has_no_get, IsNoGet};
ghost use Rattle.tj_eval.specs.Statements.{TaskState};

/// A task of a script without `get` asks for none, nor does a task that it forks.
pub fn no_get()
    // Law: the body of `main` of a script without `get` is that of a task that asks for none.
    ensures main { (script : List Task) (steps : ℕ) (body : TaskState)
        → IsTrue (script_has_no_get script) → IsMainBody script steps body
        → IsTrue (asks_no_get body) }

    // Law: such a task's asks are no gets, its children are such tasks, and it stays one whatever
    // it is answered.
    ensures asks { (task : TaskState) (a : Answer) → IsTrue (asks_no_get task)
        → IsNoGet (script_asks task a) × IsTrue (asks_no_get (script_then task a)) }
{}

/// A script whose tokens have no keyword `get` has no get.
pub fn scripts_without_the_keyword()
    // Law: a script whose tokens have no keyword `get` has no get.
    ensures { (tokens : List Tok) (script : List Task) → IsScript tokens script
        → AreWithoutGet tokens → IsTrue (script_has_no_get script) }
{}

/// A task that knows where it stands asks what the task asks without that.
pub fn placed_is_seen()
    // Law: without where it stands, a task that knows it is the task of the script: it has the same
    // places, awaits and asks the same, and becomes the same.
    ensures { (strict : Bool) → AreSeenAs erased
        (rules_of placed_places placed_awaits placed_left placed_asks placed_then strict)
        (rules_of script_places script_awaits script_left script_asks script_then strict) }
{}

/// What is ahead of a task stays right at each ask, and is right for what it forks.
pub fn stands_stay_right()
    // Law: where the numbers ahead of a task are those of its remaining statements in its
    // declaration, and behind them that of the closing brace, they are so after each ask, and of a
    // task that it forks.
    ensures { (x : PlacedState) (a : Answer) → StandsRight x
        → StandsRight (placed_then x a) × ForkStandsRight (placed_asks x a) }
{}

/// A task that stands right stands, at each of its asks, at the statement whose beginning gave it.
pub fn stands_at_its_ask()
    // Law: a task that stands right stands, as it asks, at the statement that it has come to by
    // statements that ask nothing, and whose beginning gave the ask or the fault; at that statement
    // too where it may not begin; at the closing brace where none was left; and where it stood
    // before if taking the answer failed.
    ensures { StandsAtItsAsk }
{}

/// A task of a program whose root stands right does so at each point of each round.
pub fn stands_are_right()
    // Law: in a program whose root stands right, each task of each round does, at each of its
    // points.
    ensures { (strict : Bool) (root : PlacedState) → StandsRight root → HoldsInRounds StandsRight
        (program_of placed_places placed_awaits placed_left placed_asks placed_then strict root) }
{}
