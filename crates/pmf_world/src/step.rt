//! The steps of a world, and what they answer.

ghost use Rattle.std.specs.Prelude.{◌≡◌};

use std::alloc::AllocError;
use thiserror::Error;

/// A step of a world. Workers, sections, messages and ledgers are told by their numbers, from 0.
#[derive(Clone, Copy, Debug, PartialEq, Eq)]
pub enum WorldStep {
    /// An idle worker takes the section, if it was never handed out.
    Fresh {
        /// The worker.
        worker: u32,
        /// The section.
        section: u32,
    },
    /// An idle worker takes the section, if it isn't done and was handed out fewer than 8 times.
    Again {
        /// The worker.
        worker: u32,
        /// The section.
        section: u32,
    },
    /// A worker checks its task. Takes memory.
    Check {
        /// The worker.
        worker: u32,
    },
    /// A worker sends its verdict. Takes memory.
    Send {
        /// The worker.
        worker: u32,
    },
    /// A worker marks the section whose verdict it sent.
    Mark {
        /// The worker.
        worker: u32,
    },
    /// A worker is lost, with what it has in its hand.
    Lose {
        /// The worker.
        worker: u32,
    },
    /// A message arrives at a ledger, which takes a copy of its verdict. Takes memory.
    Arrive {
        /// The message.
        message: u32,
        /// The ledger.
        ledger: u32,
    },
    /// A ledger is joined with a copy of another, which stays. Takes memory, if they aren't one.
    Join {
        /// The ledger that becomes the join of both.
        into: u32,
        /// The other.
        from: u32,
    },
}

/// What a step answers.
#[derive(Clone, Copy, Debug, PartialEq, Eq)]
pub enum WorldAnswer {
    /// The section was taken.
    Task {
        /// The section.
        section: u32,
        /// How many hand-outs of it there were with this one.
        number: u32,
    },
    /// The section is not on offer.
    NoTask,
    /// The task was checked.
    Checked,
    /// The verdict was sent.
    Sent {
        /// The number of the message.
        message: u32,
    },
    /// The section is done, and the worker idle.
    Marked,
    /// The worker is gone.
    WorkerLost,
    /// The ledger holds the section from now on.
    Added,
    /// The ledger held the section already.
    Repeat,
    /// The ledger holds the sections of both.
    Joined,
}

/// Why a step was refused: the first that applies, in this order. The world is as it was.
#[derive(Clone, Copy, Debug, PartialEq, Eq, Error)]
pub enum WorldFault {
    /// There is no worker of this number.
    #[error("no such worker")]
    NoSuchWorker,
    /// There is no section of this number.
    #[error("no such section")]
    NoSuchSection,
    /// No message of this number was sent.
    #[error("no such message")]
    NoSuchMessage,
    /// There is no ledger of this number.
    #[error("no such ledger")]
    NoSuchLedger,
    /// The worker is gone.
    #[error("the worker is gone")]
    Gone,
    /// The worker is doing something else.
    #[error("the worker is doing something else")]
    Misplaced,
    /// Memory was refused.
    #[error("out of memory")]
    OutOfMemory,
}

impl From<AllocError> for WorldFault {
    ghost use Rattle.pmf_world.specs.declared.step.WorldFault.TheVariants.{OutOfMemory};

    ghost from_gives = { λ _ fault. fault ≡ OutOfMemory };

    fn from(_refused: AllocError) -> WorldFault {
        WorldFault::OutOfMemory
    }
}
