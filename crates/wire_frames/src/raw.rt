ghost use Rattle.std.specs.Prelude.{◌≡◌, ◌<◌, ◌+◌, ◌≤◌, IfOk, IsTrue, length};
ghost use Rattle.wire_frames.specs.RawFrames.{asked_payload, done_bytes, is_whole, number_at, payload_fit, payload_of, raw_frame, raw_reading, stated_length};

use crate::asks::{Ask, ValueList};
use crate::ends::{EndKind, FrameWhy, Outcome};
use crate::kinds::PlcValue;
use crate::wires::{FrameFault, LengthRule, Reply, ReplyFault, Wire};
use node_tree::{ByteList, Node, OwnedList, Reading, Span};
use std::alloc::{AllocError, Global};

/// How many bytes stand before the payload of a raw frame.
const HEAD: usize = 4;

/// The most bytes of a raw frame.
const MAX_FRAME: usize = 4_096;

/// The most bytes of a raw frame's payload.
const MAX_PAYLOAD: usize = MAX_FRAME - HEAD;

/// The plain wire of scripts, this project's own. A frame is its length in bytes, a reference and a payload, the first two
/// as 16 bits, the higher byte first. The size of an ask is that of its request: a reply may be longer, up to the
/// limit of 4,096 bytes.
#[derive(Debug, Drop)]
pub struct RawWire;

impl RawWire {
    /// Whether bytes are one whole raw frame: they state their own length, from 4 to 4,096 bytes.
    pub fn is_whole(frame: &[u8]) -> bool
        ensures { result ≡ is_whole frame.now }
    {
        let size = frame.len();
        read_length(frame) as usize == size && (HEAD..=MAX_FRAME).contains(&size)
    }
}

/// The number of the two bytes from `at` on.
fn read_number(frame: &[u8], at: usize) -> u16
    requires { at + 1 < length frame.now }
    ensures { result ≡ number_at frame.now at }
{
    u16::from_be_bytes([frame[at], frame[at + 1]])
}

fn read_length(frame: &[u8]) -> u16
    ensures { result ≡ stated_length frame.now }
{
    if frame.len() < 2 {
        0
    } else {
        read_number(frame, 0)
    }
}

fn write_frame(alloc: Global, payload: &[u8], reference: u16) -> Result<ByteList, AllocError>
    requires { length payload.now ≤ MAX_PAYLOAD }
    ensures { IfOk result (λ bytes. bytes ≡ raw_frame payload.now reference) }
{
    let size = payload.len() + HEAD;
    let mut frame = Vec::with_capacity(alloc, size)?;
    frame.extend_from_slice(&(size as u16).to_be_bytes())?;
    frame.extend_from_slice(&reference.to_be_bytes())?;
    frame.extend_from_slice(payload)?;
    Ok(OwnedList::from_vec(frame))
}

/// The payload of a whole frame, with its bits.
fn read_frame(alloc: Global, frame: &[u8]) -> Result<Reading, AllocError>
    requires { IsTrue (is_whole frame.now) }
    ensures { IfOk result (λ reading. reading ≡ raw_reading frame.now) }
{
    let bits = frame.len() as u32 * 8;
    let payload = OwnedList::from_slice(alloc, &frame[HEAD..])?;
    let spans = OwnedList::from_slice(alloc, &[Span { from: 32, to: bits }])?;
    Ok(Reading {
        node: Node::Blob(payload),
        bits,
        spans,
    })
}

fn bytes_read(alloc: Global, payload: &[u8]) -> Result<Outcome, AllocError>
    ensures { IfOk result (λ outcome. outcome ≡ done_bytes payload.now) }
{
    let mut row = ValueList::new(alloc);
    for byte in payload {
        row.push(PlcValue::Whole(i128::from(*byte)))?;
    }
    let mut rows = OwnedList::new(alloc);
    rows.push(row)?;
    Ok(Outcome {
        kind: EndKind::Done,
        values: rows,
    })
}

fn fit_payload(alloc: Global, payload: &[u8]) -> Result<Outcome, AllocError>
    ensures { IfOk result (λ outcome. outcome ≡ payload_fit payload.now) }
{
    let kind = match payload {
        [] => EndKind::Mismatch { place: 1, got: 0 },
        [0xff, code] => EndKind::Remote(u16::from(*code)),
        _ => return bytes_read(alloc, payload),
    };
    Ok(Outcome {
        kind,
        values: OwnedList::new(alloc),
    })
}

/// The payload of an ask that the raw wire carries.
fn ask_payload(ask: &Ask) -> &[u8]
    ensures { result.now ≡ asked_payload ask.now }
{
    match ask {
        Ask::Raw(payload) => payload.as_slice(),
        _ => &[],
    }
}

fn node_payload(node: &Node) -> &[u8]
    ensures { result.now ≡ payload_of node.now }
{
    match node {
        Node::Blob(payload) => payload.as_slice(),
        _ => &[],
    }
}

impl Wire for RawWire {
    ghost use Rattle.wire_frames.specs.RawFrames.{payload_of, raw_meaning};
    ghost use Rattle.wire_frames.specs.RawReplies.{raw_replies, raw_sized};

    ghost meaning = { λ _. raw_meaning };

    fn rule(&self) -> LengthRule {
        LengthRule::Raw
    }

    fn admits(&self, ask: &Ask) -> bool {
        match ask {
            Ask::Raw(payload) => payload.len() <= MAX_PAYLOAD,
            _ => false,
        }
    }

    fn size(&self, ask: &Ask) -> u32 {
        (ask_payload(ask).len() + HEAD) as u32
    }

    fn limit(&self) -> u32 {
        MAX_FRAME as u32
    }

    fn frame(&self, alloc: Global, ask: &Ask, reference: u16) -> Result<ByteList, FrameFault> {
        Ok(write_frame(alloc, ask_payload(ask), reference)?)
    }

    fn reply<'a>(&self, alloc: Global, frame: &'a [u8]) -> Result<Reply<'a>, ReplyFault> {
        if !RawWire::is_whole(frame) {
            let got = u32::from(read_length(frame));
            return Err(ReplyFault::Undecodable(FrameWhy::Length { got }));
        }
        let reading = read_frame(alloc, frame)?;
        Ok(Reply {
            reference: read_number(frame, 2),
            frame,
            reading,
        })
    }

    fn fit(&self, alloc: Global, _ask: &Ask, reply: &Reply<'_>) -> Result<Outcome, AllocError> {
        fit_payload(alloc, node_payload(&reply.reading.node))
    }

    ghost replies = { λ wire ask reading admitted. raw_replies ask (payload_of reading.node) admitted };

    ghost sized = { λ wire ask reference frame above below admitted is. raw_sized ask reference frame is };
}
