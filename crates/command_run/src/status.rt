//! The statuses that runs of all commands have in common.
ghost use Rattle.std.specs.Prelude.{◌≡◌};
ghost use Rattle.command_run.specs.Outcome.{Faults};

/// How a run ends: a status of the command's own, or one of these.
pub trait RunStatus: Copy {
    // these statuses
    ghost faults: { Faults Self };

    /// An input has no file of its name.
    fn no_input() -> Self
        ensures { result ≡ faults.no_input };

    /// Reading an input failed.
    fn read_fault() -> Self
        ensures { result ≡ faults.read_fault };

    /// Writing an output, or saying the report, failed.
    fn write_fault() -> Self
        ensures { result ≡ faults.write_fault };

    /// Memory was wanting.
    fn out_of_memory() -> Self
        ensures { result ≡ faults.out_of_memory };
}
