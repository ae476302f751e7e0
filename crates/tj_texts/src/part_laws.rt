//! Laws of the parts of a line. They speak of the definitions alone.
ghost use Rattle.tj_findings.specs.Scenes.{Told};
ghost use Rattle.tj_texts.specs.AgreedLines.{LinesAgree};
ghost use Rattle.tj_texts.specs.AgreedParts.{PartsAgree};

/// A line tells a part of findings that are alike only if it is so of each of them, but for what the law
/// says of the first.
pub fn lines_tell_what_agrees()
    // Law: of several tasks the fork is told only if each has it. Of what they wait for, the name of the
    // first one's cell is told only if each waits for that cell, else `promises` or `tasks`, as the first
    // one's cell is; what made it and its owner only if these are so of each. So it is with the cell of
    // the causes of failures (else the word of the cause alone), what made it, the reasons, and the task
    // where echoes began. Where promises went is told as of each by itself, or in words that are so of
    // each. Of promises that were owed one owner is told only if each has this owner, and else owners only
    // if these stopped at one statement, which is told.
    // Lines are made of these parts, each taken of all findings that are told together, and have these parts
    // alone behind the names and the position: of waits what they wait for; of failures the cause, the
    // reason, what made the cell and where it went; of echoes the cause, what made the cell and where they
    // began; of promises what made the first, and who owed them. So has the line of each member of cycles.
    // Where members are left out, the line between tells how many.
    ensures { (scene : Told) → PartsAgree scene × LinesAgree scene }
{}
