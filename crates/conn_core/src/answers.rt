ghost use Rattle.conn_core.specs.declared.answers.AskRefusal.TheVariants.{NoMemory as NoMemoryToAsk};
ghost use Rattle.conn_core.specs.declared.answers.FrameRefusal.TheVariants.{NoMemory as NoMemoryForFrame};
ghost use Rattle.conn_core.specs.declared.answers.SubmitRefusal.TheVariants.{NoMemory as NoMemoryToSubmit};
ghost use Rattle.std.specs.Prelude.{◌≡◌};

use node_tree::{ByteList, WriteWhy};
use std::alloc::AllocError;
use wire_frames::{EndKind, FrameWhy, Reason};

/// Why no lease was asked.
#[derive(Clone, Copy, Debug, PartialEq, Eq)]
pub enum AskRefusal {
    /// The connection is closed, for this reason.
    Closed(Reason),
    /// As many as may be wait already, 64.
    QueueFull,
    NoMemory,
}

/// Why a lease isn't released, or what it is isn't told.
#[derive(Clone, Copy, Debug, PartialEq, Eq)]
pub enum LeaseRefusal {
    /// The connection is closed, for this reason.
    Closed(Reason),
    /// The actor neither holds nor waits for a lease with the number.
    NoLease,
}

/// A request that was accepted: its id, counted from 1, and the reference under which it goes out.
#[derive(Clone, Copy, Debug, PartialEq, Eq)]
pub struct Accepted {
    pub id: u64,
    pub reference: u16,
}

/// Why a request wasn't accepted.
#[derive(Clone, Copy, Debug, PartialEq, Eq)]
pub enum SubmitRefusal {
    /// The connection is closed, for this reason.
    Closed(Reason),
    /// The actor doesn't hold the lease.
    NoLease,
    /// As many rows as may be are kept, 1,024, ended ones too.
    TableFull,
    /// The wire has no frame for the ask: the node with the number `entry` of its tree, in preorder from 0, can't be written.
    Unwritable { entry: u32, why: WriteWhy },
    /// The wire says so many bytes of the ask, more than a frame may have.
    TooLarge { size: u32, limit: u32 },
    /// No reference is free.
    NoReference,
    NoMemory,
}

/// A request whose frame is to be written.
#[derive(Debug, Drop)]
pub struct Sending {
    pub id: u64,
    pub reference: u16,
    pub frame: ByteList,
}

/// Why there is nothing to write.
#[derive(Clone, Copy, Debug, PartialEq, Eq)]
pub enum SendRefusal {
    /// The connection is closed, for this reason.
    Closed(Reason),
    /// No request is queued, or as many as may be are sent and live.
    Nothing,
}

/// What a frame that came did.
#[derive(Clone, Copy, Debug, PartialEq, Eq)]
pub enum FrameAnswer {
    /// It ended the request with this id, in this way.
    Ended { id: u64, kind: EndKind },
    /// It came for a request that ended before: its reference is free again.
    Late { reference: u16 },
    /// No answer is awaited under its reference.
    Stray { reference: u16 },
    /// It can't be read, and closed the connection. `index` is its number among the frames that were taken, from 0.
    Undecodable { index: u64, why: FrameWhy },
}

/// Why a frame wasn't taken.
#[derive(Clone, Copy, Debug, PartialEq, Eq)]
pub enum FrameRefusal {
    /// The connection is closed, for this reason.
    Closed(Reason),
    NoMemory,
}

/// Why a request wasn't cancelled.
#[derive(Clone, Copy, Debug, PartialEq, Eq)]
pub enum CancelRefusal {
    /// It has ended already, in this way.
    AlreadyEnded(EndKind),
    /// The actor has no row with the id.
    NoRequest,
}

/// How many rows ended at a moment, and how many leases and waiters were lost.
#[derive(Clone, Copy, Debug, PartialEq, Eq)]
pub struct Ticked {
    pub rows: u32,
    pub leases: u32,
    pub waiters: u32,
}

impl From<AllocError> for AskRefusal {
    ghost from_gives = { λ _ e. e ≡ NoMemoryToAsk };

    fn from(_error: AllocError) -> AskRefusal {
        AskRefusal::NoMemory
    }
}

impl From<AllocError> for SubmitRefusal {
    ghost from_gives = { λ _ e. e ≡ NoMemoryToSubmit };

    fn from(_error: AllocError) -> SubmitRefusal {
        SubmitRefusal::NoMemory
    }
}

impl From<AllocError> for FrameRefusal {
    ghost from_gives = { λ _ e. e ≡ NoMemoryForFrame };

    fn from(_error: AllocError) -> FrameRefusal {
        FrameRefusal::NoMemory
    }
}
