//! The status that the program ends with.

use std::process::{ExitCode, Termination};

/// The status of a run of the program. Nothing outside this crate makes one, so a program that
/// returns it from `main` ends with that of a run.
#[derive(Clone, Copy, Debug, PartialEq, Eq)]
pub struct Status {
    code: u8,
}

impl Status {
    ghost use Rattle.std.specs.Prelude.{◌≡◌};

    pub(crate) fn new(code: u8) -> Status
        ensures { result.code ≡ code }
    {
        Status { code }
    }

    /// The number that the process answers.
    pub fn code(self) -> u8
        ensures { result ≡ self.code }
    {
        self.code
    }
}

impl Termination for Status {
    ghost use Rattle.std.specs.Prelude.{◌≡◌};
    ghost use Rattle.std.specs.Process.{exit_status};

    fn report<R: Eprint>(self, _rt: &R) -> ExitCode
        ensures { exit_status result ≡ self.code }
    {
        ExitCode::from(self.code)
    }
}
