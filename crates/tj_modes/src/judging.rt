//! Judging a journal.
ghost use Rattle.std.specs.Prelude.{◌<◌, ◌≤◌, ℕ, List, length, IfOk};
ghost use Rattle.tj_core.specs.declared.births.TheConstants.{MAX_CORE_CELLS};
ghost use Rattle.tj_ports.specs.Reading.{IsWithin};
ghost use Rattle.tj_syntax.specs.ScriptTexts.{most_bytes};
ghost use Rattle.tj_modes.specs.Inputs.{IsReadOf};
ghost use Rattle.tj_modes.specs.Judgings.{IsJudging};

use crate::fault_lines::journal_fault;
use std::alloc::Global;
use tj_base::Oom;
use tj_command::{Output, Status, status_of};
use tj_core::{JournalFault, judge_text, read_journal};
use tj_ports::ReadEnd;
use tj_syntax::position_behind;

/// What judging the journal gives, with room for so many cells, or the line of its fault.
pub fn judging_of(alloc: Global, journal: &ReadEnd, cells: u32) -> Result<Output, Oom>
    requires cells { (0 < cells) × (cells ≤ MAX_CORE_CELLS) }
    requires within { IsWithin most_bytes journal.now }
    ensures { IfOk result (λ output. (all : List ℕ) → IsReadOf all journal.now
        → IsJudging cells all output.status output.text.items) }
{
    match journal {
        ReadEnd::Whole(bytes) => judged(alloc, bytes.items(), cells),
        ReadEnd::Long(bytes) => Ok(Output {
            status: Status::Script,
            text: journal_fault(alloc, position_behind(bytes.items()).line)?,
        }),
    }
}

/// The same of a journal that isn't too long.
fn judged(alloc: Global, journal: &[u8], cells: u32) -> Result<Output, Oom>
    requires cells { (0 < cells) × (cells ≤ MAX_CORE_CELLS) }
    requires short { length journal.now ≤ most_bytes }
    ensures { IfOk result (λ output.
        IsJudging cells journal.now output.status output.text.items) }
{
    let events = match read_journal(alloc, journal) {
        Ok(events) => events,
        Err(JournalFault::Line(line)) => {
            return Ok(Output {
                status: Status::Script,
                text: journal_fault(alloc, line)?,
            });
        }
        Err(JournalFault::Oom) => return Err(Oom),
    };
    let judged = judge_text(alloc, events.as_slice(), cells)?;
    Ok(Output {
        status: status_of(judged.marked),
        text: judged.text.into_vec(),
    })
}
