//! How a run ends.

/// How a run ends. The program's exit code is its number.
#[derive(Clone, Copy, Debug, PartialEq, Eq)]
pub enum ExitStatus {
    /// 0: all was read, and it is messages alone.
    Done,
    /// 1: the input has bytes that are no message, or ends within one.
    Refused,
    /// 2: the command line is wrong.
    Usage,
    /// 3: a device failed, memory ran out, or too many reads were made.
    Failed,
}

impl ExitStatus {
    ghost use Rattle.std.specs.Prelude.{◌≡◌};
    ghost use Rattle.cli_report.specs.Telling.{exit_code};

    /// The program's exit code.
    pub fn code(self) -> u8
        ensures { result ≡ exit_code self }
    {
        match self {
            ExitStatus::Done => 0,
            ExitStatus::Refused => 1,
            ExitStatus::Usage => 2,
            ExitStatus::Failed => 3,
        }
    }
}

/// Why a run failed.
#[derive(Clone, Copy, Debug, PartialEq, Eq)]
pub enum Cause {
    /// An allocation failed. Or, while it was looked for where messages begin again, the source gave
    /// bytes of no packet and then of one, which are not held together; no capture does.
    Memory,
    /// The source failed.
    ReadFailed,
    /// A write failed, or took none of its bytes.
    WriteFailed,
    /// As many reads were made as may be.
    TooManyReads,
}
