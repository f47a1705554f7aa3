ghost use Rattle.std.specs.Prelude.{◌≡◌, Some};
ghost use Rattle.program.specs.declared.faults.ProgramFault.TheVariants.{OfReplay};
ghost use Rattle.program.specs.declared.faults.RunError.TheVariants.{Refused, OutOfMemory};
ghost use Rattle.program.specs.Faults.{program_notice, run_error_text};

use fault::{Fault, Layer, Notice};
use replay::ReplayFault;
use std::alloc::AllocError;
use std::error::Error;
use std::fmt;

/// Why an input is not replayed.
#[derive(Clone, Copy, Debug, PartialEq, Eq)]
pub enum ProgramFault {
    /// The fault of the replay, whole.
    OfReplay(ReplayFault),
    /// No pile number, or not one that there is.
    NoPile,
}

// By hand, here and below, since the `From` of a derive has no contract.
impl From<ReplayFault> for ProgramFault {
    ghost from_gives = { λ e r. r ≡ OfReplay e };

    fn from(value: ReplayFault) -> ProgramFault {
        ProgramFault::OfReplay(value)
    }
}

impl Fault for ProgramFault {
    ghost told = { program_notice };

    fn notice(&self) -> Notice {
        match self {
            ProgramFault::OfReplay(fault) => fault.notice(),
            ProgramFault::NoPile => Notice {
                number: 13,
                byte: Some(0),
                layer: Layer::Program,
            },
        }
    }
}

/// Why an input has no report.
#[derive(Clone, Copy, Debug, PartialEq, Eq)]
pub enum RunError {
    /// The input is refused.
    Refused(ProgramFault),
    /// Memory ran out.
    OutOfMemory,
}

impl fmt::Display for RunError {
    ghost output = { λ error. Some (run_error_text error) };

    fn fmt<W: fmt::Write>(&self, f: &mut fmt::Formatter<W>) -> fmt::Result {
        match self {
            Self::Refused(fault) => write!(f, "the input is refused with {}", fault.number()),
            Self::OutOfMemory => f.write_str("memory allocation failed"),
        }
    }
}

// So that `?` takes it to an error of any kind, as it takes the library's want of memory.
impl Error for RunError {}

impl From<ProgramFault> for RunError {
    ghost from_gives = { λ fault e. e ≡ Refused fault };

    fn from(fault: ProgramFault) -> RunError {
        RunError::Refused(fault)
    }
}

impl From<ReplayFault> for RunError {
    ghost from_gives = { λ fault e. e ≡ Refused (OfReplay fault) };

    fn from(fault: ReplayFault) -> RunError {
        RunError::Refused(ProgramFault::from(fault))
    }
}

impl From<AllocError> for RunError {
    ghost from_gives = { λ _ e. e ≡ OutOfMemory };

    fn from(_: AllocError) -> RunError {
        RunError::OutOfMemory
    }
}
