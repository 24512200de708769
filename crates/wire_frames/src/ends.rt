use crate::asks::ValueRows;
use node_tree::ReadWhy;

/// Why bytes aren't a frame that a wire can read: the length that they state, bits that are missing or
/// left over, bits from `bit` on that aren't of the description, or another kind of frame.
#[derive(Clone, Copy, Debug, PartialEq, Eq)]
pub enum FrameWhy {
    Length { got: u32 },
    Short,
    Unused { bits: u32 },
    Bad { bit: u32, why: ReadWhy },
    NotReply,
}

/// Why a connection closed. `index` is the frame's number among those that were received, from 0.
#[derive(Clone, Copy, Debug, PartialEq, Eq)]
pub enum Reason {
    PeerEnded,
    ReadFault,
    WriteFault,
    Undecodable { index: u64, why: FrameWhy },
    Worn,
    Asked,
    NoMemory,
}

/// How a request ended. The first four are what a reply makes of it: `Remote` is the device's own
/// error code, and `Mismatch` says which part of the reply isn't the ask's, and what stands there.
#[derive(Clone, Copy, Debug, PartialEq, Eq)]
pub enum EndKind {
    Done,
    Written,
    Remote(u16),
    Mismatch { place: u8, got: u32 },
    Cancelled,
    Expired,
    LeaseGone,
    Lost(Reason),
}

/// How a request ended, with the values that were read. There are none unless `kind` is `Done`.
#[derive(Debug, Drop)]
pub struct Outcome {
    pub kind: EndKind,
    pub values: ValueRows,
}
