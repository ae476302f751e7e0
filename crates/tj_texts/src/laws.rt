//! Laws of texts. They speak of the definitions alone.
ghost use Rattle.tj_texts.specs.GroupLaws.{GroupsSaySame};
ghost use Rattle.tj_texts.specs.LineLaws.{TextsTellEach};

/// Findings that are told together have lines of their own.
pub fn texts_tell_each_finding()
    // Law: the text of a forest tells its findings, one behind the other: causes, and one level below each
    // what follows from it. With `--all` each is told by itself, and else those of a group together, of
    // which there is one or more. Their lines are made of these findings alone. If no name and no source
    // line has a line feed, these are one line; of failures two more, if a source line is told, and the task
    // stopped at a position; of cycles one more for each member that is told, with two more as of failures,
    // and one where members are left out. Unless all is told, of more than 20 members the first ten and the
    // last ten are. What is told of findings that say the same, as those of a group do, begins with a word
    // for their kind: `deadlock`, `behind a deadlock`, `failed`, of echoes as well, or `owed`. Behind it the
    // line of cycles tells how many there are, if there are several, and of how many tasks each is, and
    // nothing else. Another line goes on with the names of the tasks, or of the promises that were owed: of
    // two findings both names, and of more those of the first two and how many more there are. So do the
    // lines of the members that are told of cycles, which stand behind the first line, number by number.
    // Behind names a blank stands. Behind those of tasks, in the lines of members as well, stands the position
    // at which the first of them stopped; the others stopped at the same statement.
    ensures { TextsTellEach }
{}

/// Findings of one group say the same, and those of one cause that say the same are in one group.
pub fn groups_say_the_same()
    // Law: findings of one group are of one kind. Promises that are owed were made by one statement; of
    // others the tasks stopped at one statement, of cycles one by one, and failures have one word for
    // their cause. Findings of two groups never say the same, of causes and of what follows from one cause.
    ensures { GroupsSaySame }
{}
