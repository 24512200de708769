use crate::{
    add_asked, add_cancelled, add_collected, add_outcome, add_polled, add_received, add_released,
    add_sent, add_stopped, add_submitted, add_ticked, read_why_text,
};
use conn_core::{
    Accepted, AskRefusal, CancelRefusal, FrameAnswer, FrameRefusal, LeaseAnswer, LeaseRefusal,
    LeaseState, SendRefusal, Sending, SubmitRefusal, TakeRefusal, Ticked,
};
use node_tree::{EvalFault, OwnedList, ReadWhy, WriteWhy};
use std::alloc::{AllocError, Global};
use std::process::Abort;
use std::test::Fail;
use wire_frames::{EndKind, FrameWhy, Outcome, PlcValue, Reason, ValueRows};

#[test]
fn names_why_a_value_cant_be_read(rt: HostRuntime) -> Result<(), Fail> {
    assert_eq!(rt; read_why_text(ReadWhy::NoCase), b"NoCase".as_slice());
    Ok(())
}

fn ended(alloc: Global, kind: EndKind, rows: &[&[PlcValue]]) -> Result<Outcome, AllocError> {
    let mut values = ValueRows::new(alloc);
    for row in rows {
        values.push(OwnedList::from_slice(alloc, *row)?)?;
    }
    Ok(Outcome { kind, values })
}

#[test]
fn spells_a_word_for_each_item(rt: HostRuntime) -> Result<(), Fail> {
    let alloc = rt.alloc();
    let raw = |bits: u64, width: u8| PlcValue::Raw { bits, width };
    let flags = [PlcValue::Bool(true), PlcValue::Bool(false)];
    let numbers = [PlcValue::Whole(10), PlcValue::Whole(-20)];
    let short = [raw(0x3f80_000a, 32)];
    let long = [raw(0xbff0_0000_0000_000a, 64)];
    let outcome = ended(alloc, EndKind::Done, &[&flags, &numbers, &short, &long])?;
    let mut text = Vec::from_slice(alloc, b"> ")?;
    add_outcome(&mut text, &outcome)?;
    let wanted = b"> done true,false 10,-20 16#3F80000A 16#BFF000000000000A";
    assert_eq!(rt; text.as_slice(), wanted.as_slice());
    Ok(())
}

#[test]
fn answers_an_ask_for_a_lease(rt: HostRuntime) -> Result<(), Fail> {
    let why = FrameWhy::Length { got: 2 };
    let closed = |reason: Reason| Err(AskRefusal::Closed(reason));
    let cases: [(Result<LeaseAnswer, AskRefusal>, &[u8]); 11] = [
        (Ok(LeaseAnswer::Granted { lease: 1 }), b"granted 1"),
        (
            Ok(LeaseAnswer::Waiting { lease: 2, place: 0 }),
            b"waiting 2 0",
        ),
        (closed(Reason::PeerEnded), b"closed peer ended"),
        (closed(Reason::ReadFault), b"closed read fault"),
        (closed(Reason::WriteFault), b"closed write fault"),
        (
            closed(Reason::Undecodable { index: 1, why }),
            b"closed undecodable 1 length 2",
        ),
        (closed(Reason::Worn), b"closed worn"),
        (closed(Reason::Asked), b"closed asked"),
        (closed(Reason::NoMemory), b"closed no memory"),
        (Err(AskRefusal::QueueFull), b"queue full"),
        (Err(AskRefusal::NoMemory), b"no memory"),
    ];
    for (answer, wanted) in &cases {
        let mut text = Vec::new(rt.alloc());
        add_asked(&mut text, answer)?;
        assert_eq!(rt; text.as_slice(), *wanted);
    }
    Ok(())
}

#[test]
fn answers_what_a_lease_is(rt: HostRuntime) -> Result<(), Fail> {
    let cases: [(Result<LeaseState, LeaseRefusal>, &[u8]); 4] = [
        (Ok(LeaseState::Held), b"held"),
        (Ok(LeaseState::Waiting { place: 63 }), b"waiting 63"),
        (Err(LeaseRefusal::Closed(Reason::Asked)), b"closed asked"),
        (Err(LeaseRefusal::NoLease), b"no lease"),
    ];
    for (answer, wanted) in &cases {
        let mut text = Vec::new(rt.alloc());
        add_polled(&mut text, answer)?;
        assert_eq!(rt; text.as_slice(), *wanted);
    }
    Ok(())
}

#[test]
fn answers_that_a_lease_is_given_back(rt: HostRuntime) -> Result<(), Fail> {
    let cases: [(Result<(), LeaseRefusal>, &[u8]); 3] = [
        (Ok(()), b"released"),
        (Err(LeaseRefusal::Closed(Reason::Worn)), b"closed worn"),
        (Err(LeaseRefusal::NoLease), b"no lease"),
    ];
    for (answer, wanted) in &cases {
        let mut text = Vec::new(rt.alloc());
        add_released(&mut text, answer)?;
        assert_eq!(rt; text.as_slice(), *wanted);
    }
    Ok(())
}

#[test]
fn answers_a_tick_and_the_end(rt: HostRuntime) -> Result<(), Fail> {
    let mut text = Vec::new(rt.alloc());
    let ticked = Ticked {
        rows: 1024,
        leases: 2,
        waiters: 0,
    };
    add_ticked(&mut text, ticked)?;
    text.extend_from_slice(b", ")?;
    add_stopped(&mut text, &Ok(()))?;
    text.extend_from_slice(b", ")?;
    add_stopped(&mut text, &Err(Reason::Asked))?;
    assert_eq!(rt;
        text.as_slice(),
        b"ticked 1024 2 0, stopping, closed asked".as_slice()
    );
    Ok(())
}

#[test]
fn answers_a_request(rt: HostRuntime) -> Result<(), Fail> {
    let accepted = Accepted {
        id: 3,
        reference: 65535,
    };
    let unwritable = |why: WriteWhy| Err(SubmitRefusal::Unwritable { entry: 1, why });
    let cases: [(Result<Accepted, SubmitRefusal>, &[u8]); 10] = [
        (Ok(accepted), b"started 3 65535"),
        (Err(SubmitRefusal::Closed(Reason::Worn)), b"closed worn"),
        (Err(SubmitRefusal::NoLease), b"no lease"),
        (Err(SubmitRefusal::TableFull), b"table full"),
        (unwritable(WriteWhy::ValueRange), b"unwritable ValueRange"),
        (unwritable(WriteWhy::Shape), b"unwritable Shape"),
        (
            unwritable(WriteWhy::Eval(EvalFault::CastFails)),
            b"unwritable CastFails",
        ),
        (
            Err(SubmitRefusal::TooLarge {
                size: 261,
                limit: 260,
            }),
            b"too large 261 260",
        ),
        (Err(SubmitRefusal::NoReference), b"no reference"),
        (Err(SubmitRefusal::NoMemory), b"no memory"),
    ];
    for (answer, wanted) in &cases {
        let mut text = Vec::new(rt.alloc());
        add_submitted(&mut text, answer)?;
        assert_eq!(rt; text.as_slice(), *wanted);
    }
    Ok(())
}

fn check_sent(
    rt: &impl Abort,
    alloc: Global,
    answer: &Result<Sending, SendRefusal>,
    wanted: &[u8],
) -> Result<(), Fail> {
    let mut text = Vec::new(alloc);
    add_sent(&mut text, answer)?;
    assert_eq!(rt; text.as_slice(), wanted);
    Ok(())
}

#[test]
fn answers_with_the_next_frame(rt: HostRuntime) -> Result<(), Fail> {
    let alloc = rt.alloc();
    let sending = Sending {
        id: 1,
        reference: 2,
        frame: OwnedList::from_slice(alloc, &[0, 5, 0, 2, 0xaa])?,
    };
    check_sent(&rt, alloc, &Ok(sending), b"sent 1 00050002aa")?;
    let closed = SendRefusal::Closed(Reason::PeerEnded);
    check_sent(&rt, alloc, &Err(closed), b"closed peer ended")?;
    check_sent(&rt, alloc, &Err(SendRefusal::Nothing), b"nothing")
}

#[test]
fn answers_a_frame(rt: HostRuntime) -> Result<(), Fail> {
    let kind = EndKind::Mismatch { place: 1, got: 0 };
    let bad = FrameWhy::Bad {
        bit: 40,
        why: ReadWhy::NoCase,
    };
    let undecodable = |why: FrameWhy| Ok(FrameAnswer::Undecodable { index: 5, why });
    let cases: [(Result<FrameAnswer, FrameRefusal>, &[u8]); 10] = [
        (
            Ok(FrameAnswer::Ended { id: 9, kind }),
            b"ended 9 mismatch 1 0",
        ),
        (Ok(FrameAnswer::Late { reference: 1 }), b"late 1"),
        (Ok(FrameAnswer::Stray { reference: 4 }), b"stray 4"),
        (
            undecodable(FrameWhy::Length { got: 3 }),
            b"undecodable 5 length 3",
        ),
        (undecodable(FrameWhy::Short), b"undecodable 5 short"),
        (
            undecodable(FrameWhy::Unused { bits: 16 }),
            b"undecodable 5 unused 16",
        ),
        (undecodable(bad), b"undecodable 5 bad 40 NoCase"),
        (undecodable(FrameWhy::NotReply), b"undecodable 5 not reply"),
        (Err(FrameRefusal::Closed(Reason::Worn)), b"closed worn"),
        (Err(FrameRefusal::NoMemory), b"no memory"),
    ];
    for (answer, wanted) in &cases {
        let mut text = Vec::new(rt.alloc());
        add_received(&mut text, answer)?;
        assert_eq!(rt; text.as_slice(), *wanted);
    }
    Ok(())
}

#[test]
fn answers_a_cancellation(rt: HostRuntime) -> Result<(), Fail> {
    let late = |kind: EndKind| Err(CancelRefusal::AlreadyEnded(kind));
    let cases: [(Result<(), CancelRefusal>, &[u8]); 10] = [
        (Ok(()), b"cancelled"),
        (late(EndKind::Done), b"ended done"),
        (late(EndKind::Written), b"ended written"),
        (late(EndKind::Remote(7)), b"ended remote 7"),
        (
            late(EndKind::Mismatch { place: 1, got: 0 }),
            b"ended mismatch 1 0",
        ),
        (late(EndKind::Cancelled), b"ended cancelled"),
        (late(EndKind::Expired), b"ended expired"),
        (late(EndKind::LeaseGone), b"ended lease gone"),
        (late(EndKind::Lost(Reason::Worn)), b"ended lost worn"),
        (Err(CancelRefusal::NoRequest), b"no request"),
    ];
    for (answer, wanted) in &cases {
        let mut text = Vec::new(rt.alloc());
        add_cancelled(&mut text, answer)?;
        assert_eq!(rt; text.as_slice(), *wanted);
    }
    Ok(())
}

fn check_collected(
    rt: &impl Abort,
    alloc: Global,
    answer: &Result<Outcome, TakeRefusal>,
    wanted: &[u8],
) -> Result<(), Fail> {
    let mut text = Vec::new(alloc);
    add_collected(&mut text, answer)?;
    assert_eq!(rt; text.as_slice(), wanted);
    Ok(())
}

#[test]
fn answers_a_collection(rt: HostRuntime) -> Result<(), Fail> {
    let alloc = rt.alloc();
    let row = [PlcValue::Whole(10), PlcValue::Whole(20)];
    let done = ended(alloc, EndKind::Done, &[&row])?;
    check_collected(&rt, alloc, &Ok(done), b"done 10,20")?;
    let cancelled = ended(alloc, EndKind::Cancelled, &[&row])?;
    check_collected(&rt, alloc, &Ok(cancelled), b"cancelled")?;
    check_collected(&rt, alloc, &Err(TakeRefusal::Pending), b"pending")?;
    check_collected(&rt, alloc, &Err(TakeRefusal::NoRequest), b"no request")
}
