ghost use Rattle.std.specs.Prelude.{◌≡◌};
ghost use Rattle.tdm_cli.specs.Code.{code_of};

use command_run::RunStatus;

/// How a run of the command ended. Its code is what the process ends with.
#[derive(Clone, Copy, Debug, PartialEq, Eq)]
pub enum Status {
    /// The command did what was asked for.
    Ok,
    /// The text of the board is refused.
    BoardRefused,
    /// The words are no command.
    Usage,
    /// Some net has FPGAs that no wires join.
    Unconnectable,
    /// Reading an input failed.
    ReadFault,
    /// Writing an output, or saying the report, failed.
    WriteFault,
    /// Memory ran out.
    OutOfMemory,
    /// The text of the solution is refused.
    SolutionRefused,
    /// The solution breaks a rule of the problem.
    Illegal,
    /// The text of the certificate is refused.
    CertRefused,
    /// A potential of the certificate changes along a wire by more than the wire's length.
    CertRejected,
    /// The baseline solution has more uses than `route` may write.
    UseLimit,
    /// An input has no file of its name.
    NoInput,
}

impl Status {
    /// The number that the process ends with, from 0 to 14.
    pub fn code(&self) -> u8
        ensures { result ≡ code_of self.now }
    {
        match self {
            Status::Ok => 0,
            Status::BoardRefused => 1,
            Status::Usage => 2,
            Status::Unconnectable => 3,
            Status::ReadFault => 4,
            Status::WriteFault => 5,
            Status::OutOfMemory => 6,
            Status::SolutionRefused => 7,
            Status::Illegal => 8,
            Status::CertRefused => 9,
            Status::CertRejected => 10,
            Status::UseLimit => 11,
            Status::NoInput => 14,
        }
    }
}

impl RunStatus for Status {
    ghost use Rattle.tdm_cli.specs.declared.status.Status.TheVariants as status;

    ghost faults = { record {
      no_input = status.NoInput;
      read_fault = status.ReadFault;
      write_fault = status.WriteFault;
      out_of_memory = status.OutOfMemory;
    } };

    fn no_input() -> Status {
        Status::NoInput
    }

    fn read_fault() -> Status {
        Status::ReadFault
    }

    fn write_fault() -> Status {
        Status::WriteFault
    }

    fn out_of_memory() -> Status {
        Status::OutOfMemory
    }
}
