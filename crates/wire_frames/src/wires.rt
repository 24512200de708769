ghost use Rattle.std.specs.Prelude.{ℕ, ◌≡◌, ◌<◌, ◌≤◌, ◌^◌, List, length, IfOk, IsTrue, Ok};

use crate::asks::Ask;
use crate::ends::{FrameWhy, Outcome};
use node_tree::{ByteList, Reading, WriteWhy};
use std::alloc::{AllocError, Global};

/// How frames of a wire tell their length, in 16 bits with the higher byte first: `Raw`, at byte 0, all of the frame's bytes;
/// `Modbus`, at byte 4, the bytes behind these two, as in the MBAP header of "MODBUS Messaging on TCP/IP"; `Tpkt`, at byte 2, all
/// of the frame's bytes, as RFC 1006 says.
#[derive(Clone, Copy, Debug, PartialEq, Eq)]
pub enum LengthRule {
    Raw,
    Modbus,
    Tpkt,
}

/// A frame that was read, with the reference that it carries.
#[derive(Debug, Drop)]
pub struct Reply<'a> {
    pub reference: u16,
    pub frame: &'a [u8],
    pub reading: Reading,
}

/// Why an ask has no frame: the node with the number `entry` of its tree can't be written, or want of
/// memory.
#[derive(Clone, Copy, Debug, PartialEq, Eq)]
pub enum FrameFault {
    Unwritable { entry: u32, why: WriteWhy },
    NoMemory,
}

/// Why a frame wasn't read.
#[derive(Clone, Copy, Debug, PartialEq, Eq)]
pub enum ReplyFault {
    Undecodable(FrameWhy),
    NoMemory,
}

impl From<AllocError> for FrameFault {
    ghost use Rattle.wire_frames.specs.declared.wires.FrameFault.TheVariants.{NoMemory};

    ghost from_gives = { λ _ e. e ≡ NoMemory };

    fn from(_error: AllocError) -> FrameFault {
        FrameFault::NoMemory
    }
}

impl From<AllocError> for ReplyFault {
    ghost use Rattle.wire_frames.specs.declared.wires.ReplyFault.TheVariants.{NoMemory};

    ghost from_gives = { λ _ e. e ≡ NoMemory };

    fn from(_error: AllocError) -> ReplyFault {
        ReplyFault::NoMemory
    }
}

/// A protocol: how asks are spelled as frames, how frames are read, and what a frame makes of an ask.
/// Its `meaning` says all of this as functions, and each method gives what they give. Want of memory
/// alone is free.
pub trait Wire: Drop + Send {
    ghost use Rattle.node_tree.specs.declared.readings.Reading.{Reading};
    ghost use Rattle.wire_frames.specs.WireMeaning.{WireMeaning, FramesAs, ReadsAs, IsReplyOutcome};
    ghost use Rattle.wire_frames.specs.declared.asks.Ask.{Ask};

    ghost meaning: { Self → WireMeaning };

    /// How frames of this wire tell their length.
    fn rule(&self) -> LengthRule
        ensures { result ≡ (meaning self.now).rule };

    /// Whether the wire can carry the ask at all.
    fn admits(&self, ask: &Ask) -> bool
        ensures { result ≡ (meaning self.now).admits ask.now };

    /// The bytes of the larger of the request frame and the reply frame that completes it. Of the raw wire alone it is the bytes of
    /// the request frame, since there a reply is whatever the other side makes of it.
    fn size(&self, ask: &Ask) -> u32
        requires { IsTrue ((meaning self.now).admits ask.now) }
        ensures { result ≡ (meaning self.now).size ask.now };

    /// How many bytes a frame of this connection may have.
    fn limit(&self) -> u32
        ensures { result ≡ (meaning self.now).limit };

    /// The frame that carries the ask under a reference.
    fn frame(&self, alloc: Global, ask: &Ask, reference: u16) -> Result<ByteList, FrameFault>
        requires admitted { IsTrue ((meaning self.now).admits ask.now) }
        requires referred { 0 < reference }
        ensures { FramesAs ((meaning self.now).frame_of ask.now reference) result };

    /// The reading of bytes, if they are one whole frame, and its reference.
    fn reply<'a>(&self, alloc: Global, frame: &'a [u8]) -> Result<Reply<'a>, ReplyFault>
        ensures { ReadsAs (meaning self.now) frame.now result };

    /// What a reply makes of an ask.
    fn fit(&self, alloc: Global, ask: &Ask, reply: &Reply<'_>) -> Result<Outcome, AllocError>
        requires admitted { IsTrue ((meaning self.now).admits ask.now) }
        requires read { (meaning self.now).reading_of reply.now.frame.now ≡ Ok reply.now.reading }
        ensures { IfOk result (λ outcome. outcome ≡ (meaning self.now).fit ask.now reply.now.reading) };

    /// A reply ends a request in one of the four ways of a reply, with values only where it is done: none, or a row per
    /// item of the ask, or one row for a raw ask.
    ghost replies: { (wire : Self) (ask : Ask) (reading : Reading)
        → IsTrue ((meaning wire).admits ask) → IsReplyOutcome ask ((meaning wire).fit ask reading) };

    /// A frame under a reference, a number of 16 bits above 0, has no more bytes than the wire says of its ask.
    ghost sized: { (wire : Self) (ask : Ask) (reference : ℕ) (frame : List ℕ)
        → 0 < reference → reference < 2 ^ 16 → IsTrue ((meaning wire).admits ask)
        → (meaning wire).frame_of ask reference ≡ Ok frame → length frame ≤ (meaning wire).size ask };
}
