//! How a call of the program ended.
ghost use Rattle.std.specs.Prelude.{◌≡◌};

/// What the program answers. The exit status is the index in this list, from 0.
#[derive(Clone, Copy, PartialEq, Eq)]
pub enum Status {
    /// All is well.
    Clean,
    /// A task failed, owes or waits, or an event is illegal.
    Marked,
    /// The words aren't of the right form.
    Usage,
    /// The input has a fault.
    Script,
    /// The script needs more cells.
    Full,
    /// The source failed.
    ReadFault,
    /// The sink failed.
    WriteFault,
    /// Memory could not be had.
    Memory,
}

impl Status {
    ghost use Rattle.tj_command.specs.Statuses.{exit_code_of};

    /// The exit status.
    pub fn exit_code(self) -> u8
        // The exit status is the index in the list of statuses, from 0.
        ensures { result ≡ exit_code_of self }
    {
        self as u8
    }
}
