//! What is written, with the closed words of a run over workers.
ghost use Rattle.std.specs.Prelude.{◌≡◌, IfOk, None};
ghost use Rattle.tj_command.specs.ScriptTexts.{fault_line};
ghost use Rattle.tj_command.specs.declared.status.Status.{Status};
ghost use Rattle.tj_modes.specs.Texts.{full_line};
ghost use Rattle.tj_run.specs.declared.why.RunFault.{RunFault};
ghost use Rattle.tj_syntax.specs.ScriptTexts.{IsMemory};

use std::alloc::Global;
use tj_base::Oom;
use tj_command::Output;
use tj_modes::{full, refused};
use tj_run::RunFault;
use tj_syntax::NoScript;
use tj_words::Closed;

/// An output, with the closed words of the run over workers that it tells, if it tells one.
#[derive(Drop)]
pub struct ClosedOutput {
    pub output: Output,
    pub closed: Option<Closed>,
}

/// The line of a script's fault, which has no closed words.
pub fn refused_alone(alloc: Global, fault: NoScript) -> Result<ClosedOutput, Oom>
    ensures { IfOk result (λ given. (given.output.status ≡ Status.Script)
        × (given.output.text.items ≡ fault_line fault) × (¬ IsMemory fault)
        × (given.closed ≡ None)) }
{
    Ok(ClosedOutput {
        output: refused(alloc, fault)?,
        closed: None,
    })
}

/// What is written of a run that came to no rest: that it needs more cells than these.
pub fn unrested(alloc: Global, fault: RunFault, cells: u32) -> Result<ClosedOutput, Oom>
    ensures { IfOk result (λ given. (fault ≡ RunFault.Full)
        × (given.output.status ≡ Status.Full) × (given.output.text.items ≡ full_line cells)
        × (given.closed ≡ None)) }
{
    match fault {
        RunFault::Full => Ok(ClosedOutput {
            output: full(alloc, cells)?,
            closed: None,
        }),
        RunFault::Oom => Err(Oom),
    }
}
