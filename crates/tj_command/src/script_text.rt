//! From an input to the script that it is, or to what is wrong with it first.
ghost use Rattle.std.specs.Prelude.{◌⊎◌, List, ℕ, IfOk, IfErr};
ghost use Rattle.tj_syntax.specs.ScriptTexts.{most_bytes, IsFirstFault, IsMemory, IsScriptOf, IsSomeScript};
ghost use Rattle.tj_ports.specs.Reading.{IsWithin};
ghost use Rattle.tj_command.specs.Inputs.{IsReadOf};
ghost use Rattle.tj_syntax.specs.View as view;

use std::alloc::Global;
use tj_ports::ReadEnd;
use tj_syntax::{NoScript, Script, position_behind, script_in};

/// The script that an input is.
pub fn script_of(alloc: Global, input: &ReadEnd) -> Result<Script, NoScript>
    requires { IsWithin most_bytes input.now }
    // Where there is a script, it is that of every input of which this was read.
    ensures ok { IfOk result (λ script. (all : List ℕ) → IsReadOf all input.now
        → IsScriptOf all (view.script script)) }
    ensures script { IfOk result (λ script. IsSomeScript (view.script script)) }
    // A fault is want of memory, or what is wrong first with every input of which this was read.
    ensures fault { IfErr result (λ fault. IsMemory fault
        ⊎ ((all : List ℕ) → IsReadOf all input.now → IsFirstFault all fault)) }
{
    match input {
        ReadEnd::Whole(text) => script_in(alloc, text.items()),
        ReadEnd::Long(text) => Err(NoScript::Long(position_behind(text.items()))),
    }
}
