use node_tree::{ByteList, OwnedList};
use wire_frames::{Ask, EndKind, FrameWhy, Reason};

/// What happens to a connection. Moments are in milliseconds.
#[derive(Debug, Drop)]
pub enum Event {
    AskLease {
        now: u64,
    },
    Release {
        lease: u64,
        now: u64,
    },
    Submit {
        lease: u64,
        ask: Ask,
        timeout_ms: u32,
        now: u64,
    },
    TakeSend,
    Frame {
        bytes: ByteList,
    },
    Cancel {
        id: u64,
    },
    Collect {
        id: u64,
    },
    Tick {
        now: u64,
    },
    Close {
        reason: Reason,
    },
    Shutdown,
}

/// What an event that wasn't refused brought.
#[derive(Debug, Drop)]
pub enum Answer {
    Granted {
        lease: u64,
    },
    Waiting {
        lease: u64,
        place: u8,
    },
    Released,
    Accepted {
        id: u64,
        reference: u16,
        frame: ByteList,
    },
    Sent {
        id: u64,
    },
    Ended {
        id: u64,
        kind: EndKind,
    },
    Late {
        reference: u16,
    },
    Stray {
        reference: u16,
    },
    Undecodable {
        index: u64,
        why: FrameWhy,
    },
    Cancelled,
    Collected {
        kind: EndKind,
    },
    Ticked {
        rows: u32,
        leases: u32,
        waiters: u32,
    },
    Closed,
}

/// One event that happened, who caused it, and its answer.
#[derive(Debug, Drop)]
pub struct Entry {
    pub actor: u32,
    pub event: Event,
    pub answer: Answer,
}

pub type EntryList = OwnedList<Entry>;
