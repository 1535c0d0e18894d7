ghost use Rattle.std.specs.Prelude.{◌≡◌};
ghost use Rattle.command_files.specs.Status.{exit_code, text_status};

/// How the program ends.
#[derive(Clone, Copy)]
pub enum Status {
    /// The work was done and its answer printed.
    Done,
    /// A fault, printed as `fault: NAME`.
    Fault,
    /// Words that ask for nothing, answered by the text on how to use the program.
    Usage,
    /// A run that stalled, a trace that is no run, or a case that differs.
    NotRun,
}

impl Status {
    /// How the program ends that prints a text on how to use it.
    pub fn of_text(is_mistake: bool) -> Status
        ensures { result ≡ text_status is_mistake }
    {
        if is_mistake {
            Status::Usage
        } else {
            Status::Done
        }
    }

    /// The exit status of the program.
    pub fn code(self) -> u8
        ensures { result ≡ exit_code self }
    {
        match self {
            Status::Done => 0,
            Status::Fault => 1,
            Status::Usage => 2,
            Status::NotRun => 3,
        }
    }
}
