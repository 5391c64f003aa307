//! The status of each answer of a command.

ghost use Rattle.std.specs.Prelude.{◌≡◌};
ghost use Rattle.pmf_command.specs.{Statuses.{is_trusted, status_of_asked, status_of_block_fault, status_of_check_fault, status_of_cut_fault, status_of_done, status_of_event_refusal, status_of_farm_fault, status_of_fails, status_of_fault, status_of_join_fault, status_of_joined, status_of_ledger_fault, status_of_linted, status_of_log_fault, status_of_log_refusal, status_of_merge_fault, status_of_new_fault, status_of_patch_refusal, status_of_pieces, status_of_sim_fault, status_of_text_fault}, declared.status.Status.{Status}};

use crate::status::Status;
use pmf_cut::CutFault;
use pmf_farm::FarmFault;
use pmf_ledger::{BlockFault, JoinFault, LedgerFault, Totals};
use pmf_lint::{Linted, Warnings};
use pmf_merge::MergeFault;
use pmf_query::{EventFault, EventRefusal, LogRefusal};
use pmf_storelog::{Cause, LogFault};
use pmf_stream::{CheckLogFault, Done, JoinTextFault, Joined, Pieces, StreamFault};
use pmf_why::PatchRefusal;
use pmf_world::{SimFault, WorldNewFault};

/// What a command did, or why it refused: the program ends as this says.
pub trait Ending {
    // How the program ends.
    ghost ends_as: { Self → Status };

    /// How the program ends.
    fn status(&self) -> Status
        ensures { result ≡ ends_as self.now };

    /// The cause of the log's fault, where it is one.
    fn cause(&self) -> Option<Cause> {
        None
    }

    /// What may help, where the fault alone tells it.
    fn hint(&self) -> Option<&'static str> {
        None
    }
}

fn status_of_fails(fails: u128) -> Status
    ensures { result ≡ status_of_fails fails }
{
    if fails == 0 {
        Status::NoFail
    } else {
        Status::SomeFail
    }
}

/// The log was reported.
impl Ending for Done {
    ghost ends_as = { status_of_done };

    fn status(&self) -> Status {
        if is_trusted(self.passes, self.warnings) {
            return status_of_fails(self.fails);
        }
        Status::SomeFail
    }
}

// Whether no warning was asked for; or something passes, and none is due.
fn is_trusted(passes: u128, warnings: Option<Warnings>) -> bool
    ensures { result ≡ is_trusted passes warnings }
{
    match warnings {
        None => true,
        Some(warnings) => passes > 0 && !warnings.are_due(),
    }
}

/// The event was explained.
impl Ending for () {
    ghost ends_as = { status_of_asked };

    fn status(&self) -> Status {
        Status::NoFail
    }
}

/// The log is refused.
impl Ending for LogFault {
    ghost ends_as = { status_of_log_fault };

    fn status(&self) -> Status {
        match self.cause {
            Cause::OutOfMemory => Status::NoMemory,
            _ => Status::Refused,
        }
    }

    fn cause(&self) -> Option<Cause> {
        Some(self.cause)
    }
}

/// The farm refuses its workers or its sections.
impl Ending for FarmFault {
    ghost ends_as = { status_of_farm_fault };

    fn status(&self) -> Status {
        match self {
            FarmFault::OutOfMemory => Status::NoMemory,
            FarmFault::NoWorkers
            | FarmFault::TooManyWorkers
            | FarmFault::TooManySections
            | FarmFault::TwiceNamed { .. } => Status::Refused,
        }
    }
}

/// The log is not checked.
impl Ending for CheckLogFault {
    ghost ends_as = { status_of_check_fault };

    fn status(&self) -> Status {
        match self {
            CheckLogFault::Log(fault) => fault.status(),
            CheckLogFault::Farm(fault) => fault.status(),
            CheckLogFault::TooLong => Status::Refused,
        }
    }

    fn cause(&self) -> Option<Cause> {
        match self {
            CheckLogFault::Log(fault) => fault.cause(),
            CheckLogFault::Farm(_) | CheckLogFault::TooLong => None,
        }
    }

    fn hint(&self) -> Option<&'static str> {
        match self {
            CheckLogFault::TooLong => Some(
                "`pmfarm cut --files PREFIX` cuts the log, and `pmfarm join --stream` joins ledgers of any length",
            ),
            CheckLogFault::Log(_) | CheckLogFault::Farm(_) => None,
        }
    }
}

/// An event is not told of.
impl Ending for EventRefusal {
    ghost ends_as = { status_of_event_refusal };

    fn status(&self) -> Status {
        match self.fault {
            EventFault::NoSection | EventFault::NoEvent => Status::Refused,
            EventFault::OutOfMemory => Status::NoMemory,
            EventFault::Log(fault) => fault.status(),
        }
    }

    fn cause(&self) -> Option<Cause> {
        match self.fault {
            EventFault::Log(fault) => fault.cause(),
            _ => None,
        }
    }
}

/// A log is not patched.
impl Ending for PatchRefusal {
    ghost ends_as = { status_of_patch_refusal };

    fn status(&self) -> Status {
        match self {
            PatchRefusal::Why(found) => found.status(),
            PatchRefusal::TooLong => Status::Refused,
        }
    }

    fn cause(&self) -> Option<Cause> {
        match self {
            PatchRefusal::Why(found) => found.cause(),
            PatchRefusal::TooLong => Some(Cause::TooLong),
        }
    }
}

/// A log is not told of.
impl Ending for LogRefusal {
    ghost ends_as = { status_of_log_refusal };

    fn status(&self) -> Status {
        match self {
            LogRefusal::Log(fault) => fault.status(),
            LogRefusal::OutOfMemory => Status::NoMemory,
        }
    }

    fn cause(&self) -> Option<Cause> {
        match self {
            LogRefusal::Log(fault) => fault.cause(),
            LogRefusal::OutOfMemory => None,
        }
    }
}

/// The log was looked through.
impl Ending for Linted {
    ghost ends_as = { status_of_linted };

    fn status(&self) -> Status {
        if self.is_suspicious {
            Status::SomeFail
        } else {
            Status::NoFail
        }
    }
}

/// The log was cut.
impl Ending for Pieces {
    ghost ends_as = { status_of_pieces };

    fn status(&self) -> Status {
        if self.told == 0 {
            Status::NoFail
        } else {
            Status::SomeFail
        }
    }
}

/// The log is not cut.
impl Ending for CutFault {
    ghost ends_as = { status_of_cut_fault };

    fn status(&self) -> Status {
        match self {
            CutFault::Log(fault) => fault.status(),
            CutFault::OutOfMemory => Status::NoMemory,
            CutFault::NoNumber { .. } | CutFault::Taken { .. } => Status::Refused,
        }
    }

    fn cause(&self) -> Option<Cause> {
        match self {
            CutFault::Log(fault) => fault.cause(),
            _ => None,
        }
    }
}

/// The ledgers were joined.
impl Ending for Joined {
    ghost ends_as = { status_of_joined };

    fn status(&self) -> Status {
        status_of_fails(self.fails)
    }
}

/// The text is no ledger's.
impl Ending for LedgerFault {
    ghost ends_as = { status_of_ledger_fault };

    fn status(&self) -> Status {
        match self {
            LedgerFault::Log(fault) => fault.status(),
            LedgerFault::OutOfMemory => Status::NoMemory,
            LedgerFault::NotALedger { .. }
            | LedgerFault::FalseRows { .. }
            | LedgerFault::Conflict { .. } => Status::Refused,
        }
    }
}

/// A block of the text is refused.
impl Ending for BlockFault {
    ghost ends_as = { status_of_block_fault };

    fn status(&self) -> Status {
        match self {
            BlockFault::Text(fault) => fault.status(),
            BlockFault::OutOfOrder { .. } => Status::Refused,
        }
    }
}

/// The ledgers were merged.
impl Ending for Totals {
    ghost ends_as = { λ totals. status_of_fails totals.fail };

    fn status(&self) -> Status {
        status_of_fails(self.fail)
    }
}

/// The ledgers are not merged.
impl Ending for MergeFault {
    ghost ends_as = { status_of_merge_fault };

    fn status(&self) -> Status {
        match self {
            MergeFault::Text { fault, .. } => fault.status(),
            MergeFault::Read { .. } | MergeFault::Write { .. } => Status::DeviceFault,
            MergeFault::OutOfMemory => Status::NoMemory,
            MergeFault::ProfileMismatch { .. } | MergeFault::Conflict { .. } => Status::Refused,
        }
    }
}

/// The ledgers don't join.
impl Ending for JoinFault {
    ghost ends_as = { status_of_join_fault };

    fn status(&self) -> Status {
        match self {
            JoinFault::OutOfMemory => Status::NoMemory,
            JoinFault::ProfileMismatch | JoinFault::Conflict { .. } => Status::Refused,
        }
    }
}

/// The texts of ledgers are not joined.
impl Ending for JoinTextFault {
    ghost ends_as = { status_of_text_fault };

    fn status(&self) -> Status {
        match self {
            JoinTextFault::Load { fault, .. } => fault.status(),
            JoinTextFault::Join(fault) => fault.status(),
            JoinTextFault::TooLong => Status::Refused,
            JoinTextFault::OutOfMemory => Status::NoMemory,
        }
    }

    fn hint(&self) -> Option<&'static str> {
        match self {
            JoinTextFault::TooLong => Some("`pmfarm join --stream` joins ledgers of any length"),
            _ => None,
        }
    }
}

/// There is no such world.
impl Ending for WorldNewFault {
    ghost ends_as = { status_of_new_fault };

    fn status(&self) -> Status {
        match self {
            WorldNewFault::OutOfMemory => Status::NoMemory,
            WorldNewFault::NoWorkers
            | WorldNewFault::TooManyWorkers
            | WorldNewFault::TooManySections
            | WorldNewFault::TwiceNamed { .. }
            | WorldNewFault::TooManyLedgers => Status::Refused,
        }
    }
}

/// The schedule is not played.
impl Ending for SimFault {
    ghost ends_as = { status_of_sim_fault };

    fn status(&self) -> Status {
        match self {
            SimFault::TooLong | SimFault::BadStep { .. } => Status::Refused,
            SimFault::Log(fault) => fault.status(),
            SimFault::New(fault) => fault.status(),
            SimFault::OutOfMemory => Status::NoMemory,
        }
    }
}

/// The stream is not answered.
impl<E: Ending> Ending for StreamFault<E> {
    ghost ends_as = { status_of_fault E.ends_as };

    fn status(&self) -> Status {
        match self {
            StreamFault::ReadFault | StreamFault::WriteFault { .. } => Status::DeviceFault,
            StreamFault::OutOfMemory => Status::NoMemory,
            StreamFault::Refused(found) => found.status(),
        }
    }

    fn cause(&self) -> Option<Cause> {
        match self {
            StreamFault::Refused(found) => found.cause(),
            _ => None,
        }
    }

    fn hint(&self) -> Option<&'static str> {
        match self {
            StreamFault::Refused(found) => found.hint(),
            _ => None,
        }
    }
}
