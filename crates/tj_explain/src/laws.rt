//! Laws of the output. They speak of the definitions alone.
ghost use Rattle.std.specs.Prelude.{ℕ, ◌≡◌, List, String};
ghost use Rattle.std.specs.declared.alloc.Global.{Global};
ghost use Rattle.tj_command.specs.declared.status.Status.{Status};
ghost use Rattle.tj_explain.specs.FullPlaces.{TextsTellFull};
ghost use Rattle.tj_explain.specs.GroupTrees.{GroupsAreOfTrees, LeavesAreGrouped};
ghost use Rattle.tj_explain.specs.GroupsTold.{GroupsTellEachFinding};
ghost use Rattle.tj_explain.specs.ToldFindings.{TextsTellFindings};
ghost use Rattle.tj_explain.specs.WhyOutput.{IsOutput};

use crate::place_laws::places_are_of_tokens;
use tj_command::one_script_or_fault;
use tj_forest::{consequences_follow, waits_lead_to_told_cycles};

/// Words and an input have one output at most: one status and one text.
pub fn one_output()
    // Law: words and an input have one output at most: one status and one text.
    ensures { (words : List (String Global)) (input : List ℕ) (a b : Status) (s t : List ℕ)
        → IsOutput words input a s → IsOutput words input b t → (a ≡ b) × (s ≡ t) }
{
    one_script_or_fault();
}

/// What is told of a run in words or objects is a forest of findings, which explain the run.
pub fn texts_tell_findings()
    // Law: an output in words or in objects of JSON whose status is that of an outcome is of a script.
    // It tells a forest of findings: objects each by itself, and words by groups of those that are
    // alike, or with `--all` each by itself; where there are none, that nothing went wrong. Of a finding
    // words leave out members of a long cycle and the end of long arguments, and of a group the names
    // behind its second and what differs in it. Of what variables held as a task failed both tell the
    // reason; else objects leave nothing out. There are no findings exactly where the status says so.
    // What tj_forest's laws say of lists of findings holds of those of the forest, and each consequence
    // stands below its cause. Among causes promises owed by ended tasks come last, and a set that was
    // refused comes before each cycle in which a task waits for its cell. A failure comes before a cycle
    // only if it is such a set, for whose cell a task of this cycle waits, or of one before it. What made
    // a cell is told with a failure only if its cause names one.
    ensures { TextsTellFindings }
{
    waits_lead_to_told_cycles();
    consequences_follow();
}

/// The statement that is told to have made most of the first cells stands at a token of the input.
pub fn texts_tell_full()
    // Law: an output whose status is that of a run which needs more cells than the limit is of a script
    // that does. The statement which it tells below `full`, or in the object, made most of the first
    // cells, one more than the limit, of the first round that has more. Each of these but the root's
    // result is a thing that a task of this round made, and the history of this task then stood at the
    // statement that is counted for it. The position that is told is that of a token of the input: of
    // the statement's ask, or of the closing brace.
    ensures { TextsTellFull }
{
    places_are_of_tokens();
}

/// What a text tells at once are the findings of its forest, each as often as the forest has it.
pub fn groups_tell_each_finding()
    // Law: the findings that a text tells together are those of the forest, causes and what follows from
    // them, each as often as the forest has it. So is it with `--all` and without.
    ensures { GroupsTellEachFinding }
{}

/// Below a group stands what follows from its own causes, and this is put into groups as causes are.
pub fn groups_keep_what_follows()
    // Law: each group of the causes of a forest is of some of its trees, in their order: its members are
    // their causes, and below it stands what follows from these, from the first, from the second and so
    // on, and nothing else. Each tree is in one group, as often as the forest has it, and the groups stand
    // in the order of their first trees. So is it with `--all` and without. What follows from the causes
    // of a group is put into groups as causes are, each finding as a tree by itself.
    ensures { GroupsAreOfTrees × LeavesAreGrouped }
{}
