//! Laws of the grammar. They speak of the definitions alone.
ghost use Rattle.std.specs.Prelude.{◌≡◌, List, map};
ghost use Rattle.tj_lex.specs.declared.token.Tok.{Tok};
ghost use Rattle.tj_lex.specs.declared.token.Token.{Token};
ghost use Rattle.tj_syntax.specs.Faults.{EndsInEnd, IsFirstFault, IsScript, kinds_of};
ghost use Rattle.tj_syntax.specs.Grammar.{IsProgram};
ghost use Rattle.tj_syntax.specs.Marks.{Noted};
ghost use Rattle.tj_syntax.specs.Parts.{TasksStandAt};
ghost use Rattle.tj_syntax.specs.Starts.{in_tasks};
ghost use Rattle.tj_syntax.specs.Trees.{Task};
ghost use Rattle.tj_syntax.specs.declared.fault.ParseFault.{ParseFault};

/// A list of tokens is one script at most.
pub fn one_script()
    // Law: a list of tokens is one script at most.
    ensures { (tokens : List Tok) (a b : List Task)
        → IsScript tokens a → IsScript tokens b → a ≡ b }
{}

/// A list of tokens has one first fault at most.
pub fn one_fault()
    // Law: it has one first fault at most.
    ensures { (tokens : List Token) (a b : ParseFault) → EndsInEnd tokens
        → IsFirstFault tokens a → IsFirstFault tokens b → a ≡ b }
{}

/// A script has no first fault.
pub fn scripts_have_no_fault()
    // Law: a script has no first fault.
    ensures { (tokens : List Token) (script : List Task) (fault : ParseFault) → EndsInEnd tokens
        → IsScript (kinds_of tokens) script → IsFirstFault tokens fault → ⊥ }
{}

/// Each task stands at its start, and in each the n-th start is that of the n-th statement.
pub fn parts_stand_at_their_starts()
    // Law: each task stands at its start, with as many starts as it has statements, the n-th that
    // of its n-th statement, and that of the statement's ask; its closing brace is the last of its
    // tokens.
    ensures { (notes : List Noted) (script : List Task) (derived : IsProgram notes script)
        → TasksStandAt (map (λ t. t.name) script) notes script (in_tasks derived 0) }
{}
