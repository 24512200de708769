ghost use Rattle.std.specs.Prelude.{◌≡◌, ◌==◌, ◌||◌, length, slice_index};
ghost use Rattle.wire_frames.specs.RawFrames.{asked_payload};

use crate::{Accepted, ConnState, FrameAnswer, LeaseAnswer, Settings, SubmitRefusal};
use node_tree::{ByteList, Node, OwnedList, Reading, WriteWhy};
use std::alloc::{AllocError, Global};
use std::process::Abort;
use std::test::Fail;
use wire_frames::{
    Ask, EndKind, FrameFault, FrameWhy, LengthRule, Outcome, Reason, Reply, ReplyFault, Wire,
};

/// A wire that carries raw asks of at most 100 bytes, by frames of at most 10 bytes that are the payload alone. A
/// payload can't be written where it is empty or begins with the reference. A frame that comes can be read where it is one
/// byte, the reference of the request that it ends as written.
#[derive(Debug, Drop)]
struct BareWire;

fn payload_of(ask: &Ask) -> &[u8]
    ensures { result.now ≡ asked_payload ask.now }
{
    match ask {
        Ask::Raw(payload) => payload.as_slice(),
        Ask::Read(_) | Ask::Write(_, _) => &[],
    }
}

fn is_barred(payload: &[u8], reference: u16) -> bool
    ensures { result ≡ ((length payload.now == 0) || (slice_index payload.now 0 == reference)) }
{
    match payload {
        [] => true,
        [first, ..] => u16::from(*first) == reference,
    }
}

impl Wire for BareWire {
    ghost use Rattle.std.specs.Prelude.{◌==◌, ◌&&◌, ◌||◌, if◌then◌else◌, nat_le};
    ghost use Rattle.std.specs.Prelude.{[], Ok, Err, length, slice_index, refl};
    ghost use Rattle.node_tree.specs.declared.faults.WriteWhy.TheVariants.{ValueRange};
    ghost use Rattle.node_tree.specs.declared.nodes.Node.TheVariants.{Blob};
    ghost use Rattle.wire_frames.specs.RawFrames.{asked_payload, raw_admits};
    ghost use Rattle.wire_frames.specs.declared.ends.EndKind.TheVariants.{Written};
    ghost use Rattle.wire_frames.specs.declared.ends.FrameWhy.TheVariants.{NotReply};
    ghost use Rattle.wire_frames.specs.declared.wires.LengthRule.TheVariants.{Raw};
    ghost use Rattle.conn_core.specs.BareWires.{bare_sized};

    ghost meaning = { λ _. record {
      rule = Raw;
      admits = λ ask. raw_admits ask && nat_le (length (asked_payload ask)) 100;
      size = λ ask. length (asked_payload ask);
      limit = 10;
      frame_of = λ ask reference.
          if (length (asked_payload ask) == 0) || (slice_index (asked_payload ask) 0 == reference)
          then Err (record { entry = 2; why = ValueRange })
          else Ok (asked_payload ask);
      reading_of = λ frame. if length frame == 1 then Ok (record { node = Blob []; bits = 8; spans = [] }) else Err NotReply;
      reference_of = λ frame. slice_index frame 0;
      fit = λ ask reading. record { kind = Written; values = [] };
    } };

    fn rule(&self) -> LengthRule {
        LengthRule::Raw
    }

    fn admits(&self, ask: &Ask) -> bool {
        match ask {
            Ask::Raw(payload) => payload.len() <= 100,
            Ask::Read(_) | Ask::Write(_, _) => false,
        }
    }

    fn size(&self, ask: &Ask) -> u32 {
        payload_of(ask).len() as u32
    }

    fn limit(&self) -> u32 {
        10
    }

    fn frame(&self, alloc: Global, ask: &Ask, reference: u16) -> Result<ByteList, FrameFault> {
        let payload = payload_of(ask);
        if is_barred(payload, reference) {
            return Err(FrameFault::Unwritable {
                entry: 2,
                why: WriteWhy::ValueRange,
            });
        }
        Ok(OwnedList::from_slice(alloc, payload)?)
    }

    fn reply<'a>(&self, alloc: Global, frame: &'a [u8]) -> Result<Reply<'a>, ReplyFault> {
        let [reference] = frame else {
            return Err(ReplyFault::Undecodable(FrameWhy::NotReply));
        };
        let reading = Reading {
            node: Node::Blob(OwnedList::new(alloc)),
            bits: 8,
            spans: OwnedList::new(alloc),
        };
        Ok(Reply {
            reference: u16::from(*reference),
            frame,
            reading,
        })
    }

    fn fit(&self, alloc: Global, _ask: &Ask, _reply: &Reply<'_>) -> Result<Outcome, AllocError> {
        Ok(Outcome {
            kind: EndKind::Written,
            values: OwnedList::new(alloc),
        })
    }

    ghost replies = { λ wire ask reading admitted. refl };

    ghost sized = { λ wire ask reference frame above below admitted is. bare_sized _ _ (asked_payload ask) frame is };
}

const UNWRITABLE: SubmitRefusal = SubmitRefusal::Unwritable {
    entry: 2,
    why: WriteWhy::ValueRange,
};

const TOO_LARGE: SubmitRefusal = SubmitRefusal::TooLarge {
    size: 11,
    limit: 10,
};

/// An open connection over so many references, on which actor 1 holds lease 1.
fn open(rt: &impl Abort, alloc: Global, references: u16) -> Result<ConnState<BareWire>, Fail> {
    let settings = Settings {
        references: references.max(1),
        window: 8,
        share: 1,
        journal: 262144,
        lease_ms: 60000,
        wait_ms: 60000,
    };
    let mut state = ConnState::new(alloc, BareWire, settings)?;
    assert_eq!(rt;
        state.ask_lease(1, 7),
        Ok(LeaseAnswer::Granted { lease: 1 })
    );
    Ok(state)
}

fn submit(
    alloc: Global,
    state: &mut ConnState<BareWire>,
    lease: u64,
    payload: &[u8],
) -> Result<Result<Accepted, SubmitRefusal>, Fail> {
    let ask = Ask::Raw(OwnedList::from_slice(alloc, payload)?);
    if !state.admits(&ask) {
        return Err(Fail::from("not admitted"));
    }
    Ok(state.submit(1, lease, ask, 1000, 7))
}

/// A refused request writes nothing down.
fn check_refused(
    rt: &impl Abort,
    alloc: Global,
    state: &mut ConnState<BareWire>,
    lease: u64,
    payload: &[u8],
    refusal: SubmitRefusal,
) -> Result<(), Fail> {
    let entries = state.journal().len();
    assert_eq!(rt; submit(alloc, state, lease, payload)?, Err(refusal));
    assert_eq!(rt; state.journal().len(), entries);
    Ok(())
}

fn check_accepted(
    rt: &impl Abort,
    alloc: Global,
    state: &mut ConnState<BareWire>,
    payload: &[u8],
    id: u64,
    reference: u16,
) -> Result<(), Fail> {
    let accepted = submit(alloc, state, 1, payload)?;
    assert_eq!(rt; accepted, Ok(Accepted { id, reference }));
    Ok(())
}

/// The table closes by a frame, and answers every request why.
fn check_closed(
    rt: &impl Abort,
    alloc: Global,
    state: &mut ConnState<BareWire>,
) -> Result<(), Fail> {
    let entries = state.journal().len();
    let why = FrameWhy::NotReply;
    let answer = state.apply_frame(0, OwnedList::from_slice(alloc, &[1, 2, 3])?);
    assert_eq!(rt; answer, Ok(FrameAnswer::Undecodable { index: 0, why }));
    let reason = Reason::Undecodable { index: 0, why };
    assert_eq!(rt; state.closed(), Some(reason));
    assert_eq!(rt; state.journal().len(), entries + 1);
    let closed = SubmitRefusal::Closed(reason);
    for lease in 1u64..3 {
        check_refused(rt, alloc, state, lease, &[], closed)?;
        check_refused(rt, alloc, state, lease, &[9; 11], closed)?;
        check_refused(rt, alloc, state, lease, &[9], closed)?;
    }
    Ok(())
}

#[test]
fn a_written_request_ends_and_is_collected(rt: HostRuntime) -> Result<(), Fail> {
    let alloc = rt.alloc();
    let mut state = open(&rt, alloc, 2)?;
    check_accepted(&rt, alloc, &mut state, &[9], 1, 1)?;
    match state.take_send(0) {
        Ok(sending) => assert_eq!(rt; sending.frame.as_slice(), [9].as_slice()),
        Err(_) => return Err(Fail::from("nothing to send")),
    }
    let kind = EndKind::Written;
    let stray = state.apply_frame(0, OwnedList::from_slice(alloc, &[2])?);
    assert_eq!(rt; stray, Ok(FrameAnswer::Stray { reference: 2 }));
    let ended = state.apply_frame(0, OwnedList::from_slice(alloc, &[1])?);
    assert_eq!(rt; ended, Ok(FrameAnswer::Ended { id: 1, kind }));
    match state.collect(1, 1) {
        Ok(outcome) => assert_eq!(rt; (outcome.kind, outcome.values.len()), (kind, 0)),
        Err(_) => return Err(Fail::from("nothing to collect")),
    }
    Ok(())
}

#[test]
fn an_ask_that_cannot_be_written_is_refused(rt: HostRuntime) -> Result<(), Fail> {
    let alloc = rt.alloc();
    let mut state = open(&rt, alloc, 2)?;
    check_refused(&rt, alloc, &mut state, 1, &[], UNWRITABLE)?;
    check_refused(&rt, alloc, &mut state, 1, &[1, 5], UNWRITABLE)?;
    check_refused(&rt, alloc, &mut state, 2, &[], SubmitRefusal::NoLease)?;
    check_accepted(&rt, alloc, &mut state, &[2, 5], 1, 1)?;
    check_refused(&rt, alloc, &mut state, 1, &[2, 5], UNWRITABLE)?;
    check_accepted(&rt, alloc, &mut state, &[1, 5], 2, 2)
}

#[test]
fn an_ask_above_the_limit_is_refused(rt: HostRuntime) -> Result<(), Fail> {
    let alloc = rt.alloc();
    let mut state = open(&rt, alloc, 2)?;
    check_refused(&rt, alloc, &mut state, 1, &[9; 11], TOO_LARGE)?;
    check_refused(&rt, alloc, &mut state, 1, &[1; 11], UNWRITABLE)?;
    check_refused(&rt, alloc, &mut state, 2, &[9; 11], SubmitRefusal::NoLease)?;
    let largest = SubmitRefusal::TooLarge {
        size: 100,
        limit: 10,
    };
    check_refused(&rt, alloc, &mut state, 1, &[9; 100], largest)?;
    let longer = Ask::Raw(OwnedList::from_slice(alloc, &[9; 101])?);
    assert_eq!(rt; state.admits(&longer), false);
    check_accepted(&rt, alloc, &mut state, &[9; 10], 1, 1)
}

#[test]
fn an_ask_without_a_free_reference_is_refused(rt: HostRuntime) -> Result<(), Fail> {
    let alloc = rt.alloc();
    let mut state = open(&rt, alloc, 1)?;
    check_accepted(&rt, alloc, &mut state, &[9], 1, 1)?;
    check_refused(&rt, alloc, &mut state, 2, &[9], SubmitRefusal::NoLease)?;
    check_refused(&rt, alloc, &mut state, 1, &[], UNWRITABLE)?;
    check_refused(&rt, alloc, &mut state, 1, &[1], UNWRITABLE)?;
    check_refused(&rt, alloc, &mut state, 1, &[1; 11], UNWRITABLE)?;
    check_refused(&rt, alloc, &mut state, 1, &[9; 11], TOO_LARGE)?;
    check_refused(&rt, alloc, &mut state, 1, &[9], SubmitRefusal::NoReference)?;
    check_closed(&rt, alloc, &mut state)
}

#[test]
fn an_ask_to_a_full_table_is_refused(rt: HostRuntime) -> Result<(), Fail> {
    let alloc = rt.alloc();
    let mut state = open(&rt, alloc, 1024)?;
    for id in 1u16..1025 {
        check_accepted(&rt, alloc, &mut state, &[0], u64::from(id), id)?;
    }
    let no_lease = SubmitRefusal::NoLease;
    check_refused(&rt, alloc, &mut state, 2, &[], no_lease)?;
    check_refused(&rt, alloc, &mut state, 2, &[9; 11], no_lease)?;
    check_refused(&rt, alloc, &mut state, 2, &[9], no_lease)?;
    let full = SubmitRefusal::TableFull;
    check_refused(&rt, alloc, &mut state, 1, &[], full)?;
    check_refused(&rt, alloc, &mut state, 1, &[9; 11], full)?;
    check_refused(&rt, alloc, &mut state, 1, &[9], full)?;
    check_closed(&rt, alloc, &mut state)
}
