use crate::{
    Area, Ask, EndKind, FrameFault, FrameWhy, Item, LengthRule, PlcType, PlcValue, RawWire,
    ReplyFault, ValueRows, Wire,
};
use node_tree::{ByteList, Node, OwnedList};
use std::alloc::{AllocError, Global};
use std::process::Abort;
use std::test::Fail;

fn bytes(alloc: Global, items: &[u8]) -> Result<ByteList, AllocError> {
    OwnedList::from_slice(alloc, items)
}

/// The frame of an ask that a wire admits.
fn frame_by<W: Wire>(
    alloc: Global,
    wire: &W,
    payload: &[u8],
    reference: u16,
) -> Result<Option<ByteList>, FrameFault> {
    let ask = Ask::Raw(bytes(alloc, payload)?);
    if reference == 0 || !wire.admits(&ask) {
        return Ok(None);
    }
    Ok(Some(wire.frame(alloc, &ask, reference)?))
}

/// What a frame makes of an ask, and its reference.
fn fit_by<W: Wire>(
    alloc: Global,
    wire: &W,
    frame: &[u8],
) -> Result<Option<(u16, EndKind, ValueRows)>, ReplyFault> {
    let ask = Ask::Raw(ByteList::new(alloc));
    if !wire.admits(&ask) {
        return Ok(None);
    }
    let reply = wire.reply(alloc, frame)?;
    let outcome = wire.fit(alloc, &ask, &reply)?;
    Ok(Some((reply.reference, outcome.kind, outcome.values)))
}

fn check_fit(
    rt: &impl Abort,
    alloc: Global,
    frame: &[u8],
    kind: EndKind,
    values: &[PlcValue],
) -> Result<(), Fail> {
    let (reference, got, rows) = fit_by(alloc, &RawWire, frame)?.ok_or("not admitted")?;
    assert_eq!(rt; reference, 1);
    assert_eq!(rt; got, kind);
    match rows.as_slice() {
        [] => assert_eq!(rt; values.len(), 0),
        [row] => assert_eq!(rt; row.as_slice(), values),
        _ => return Err(Fail::from("one row at most")),
    }
    Ok(())
}

#[test]
fn spells_a_raw_ask(rt: HostRuntime) -> Result<(), Fail> {
    let alloc = rt.alloc();
    let frame = frame_by(alloc, &RawWire, &[0xaa], 1)?.ok_or("not admitted")?;
    assert_eq!(rt; frame.as_slice(), [0, 5, 0, 1, 0xaa].as_slice());
    let ask = Ask::Raw(bytes(alloc, &[0xaa])?);
    assert_eq!(rt; RawWire.limit(), 4096);
    assert_eq!(rt; RawWire.rule(), LengthRule::Raw);
    assert!(rt; RawWire.admits(&ask));
    let longest = Ask::Raw(OwnedList::from_vec(vec![in alloc; 0; 4092]?));
    assert!(rt; RawWire.admits(&longest));
    let longer = Ask::Raw(OwnedList::from_vec(vec![in alloc; 0; 4093]?));
    assert!(rt; !RawWire.admits(&longer));
    assert!(rt; !RawWire.admits(&Ask::Read(OwnedList::new(alloc))));
    Ok(())
}

#[test]
fn a_raw_payload_ends_its_ask(rt: HostRuntime) -> Result<(), Fail> {
    let alloc = rt.alloc();
    let whole = |n: i128| PlcValue::Whole(n);
    check_fit(
        &rt,
        alloc,
        &[0, 5, 0, 1, 0xbb],
        EndKind::Done,
        &[whole(187)],
    )?;
    check_fit(
        &rt,
        alloc,
        &[0, 5, 0, 1, 0xff],
        EndKind::Done,
        &[whole(255)],
    )?;
    check_fit(&rt, alloc, &[0, 6, 0, 1, 0xff, 7], EndKind::Remote(7), &[])?;
    check_fit(
        &rt,
        alloc,
        &[0, 6, 0, 1, 7, 0xff],
        EndKind::Done,
        &[whole(7), whole(255)],
    )?;
    let three = [whole(255), whole(1), whole(2)];
    check_fit(&rt, alloc, &[0, 7, 0, 1, 0xff, 1, 2], EndKind::Done, &three)?;
    check_fit(
        &rt,
        alloc,
        &[0, 4, 0, 1],
        EndKind::Mismatch { place: 1, got: 0 },
        &[],
    )
}

#[test]
fn a_raw_reading_is_the_payload(rt: HostRuntime) -> Result<(), Fail> {
    let reply = RawWire.reply(rt.alloc(), &[0, 6, 0, 0, 1, 2])?;
    assert_eq!(rt; reply.reference, 0);
    assert_eq!(rt; reply.reading.bits, 48);
    assert_eq!(rt; reply.reading.spans.len(), 1);
    match &reply.reading.node {
        Node::Blob(payload) => assert_eq!(rt; payload.as_slice(), [1, 2].as_slice()),
        _ => return Err(Fail::from("a payload")),
    }
    Ok(())
}

#[test]
fn other_lengths_are_no_raw_frames(rt: HostRuntime) -> Result<(), Fail> {
    let alloc = rt.alloc();
    let cases: [(&[u8], u32); 6] = [
        (&[], 0),
        (&[9], 0),
        (&[0, 3], 3),
        (&[0, 3, 0], 3),
        (&[0, 6, 0, 1, 2], 6),
        (&[0xff, 0xff, 0, 1, 2], 65535),
    ];
    for (frame, got) in &cases {
        match RawWire.reply(alloc, frame) {
            Ok(_) => return Err(Fail::from("no raw frame was read")),
            Err(fault) => {
                assert_eq!(rt;
                    fault,
                    ReplyFault::Undecodable(FrameWhy::Length { got: *got })
                )
            }
        }
    }
    Ok(())
}

#[test]
fn copies_an_ask(rt: HostRuntime) -> Result<(), Fail> {
    let alloc = rt.alloc();
    let item = Item {
        area: Area::HoldingRegister,
        block: 0,
        start: 7,
        bit: 0,
        kind: PlcType::Int,
        count: 2,
    };
    let numbers = [PlcValue::Whole(3), PlcValue::Whole(-4)];
    match Ask::Read(OwnedList::from_slice(alloc, &[item])?).copy(alloc)? {
        Ask::Read(items) => assert_eq!(rt; items.as_slice(), [item].as_slice()),
        _ => return Err(Fail::from("a read")),
    }
    let mut rows = ValueRows::new(alloc);
    rows.push(OwnedList::from_slice(alloc, &numbers)?)?;
    match Ask::Write(OwnedList::from_slice(alloc, &[item])?, rows).copy(alloc)? {
        Ask::Write(items, rows) => {
            assert_eq!(rt; items.as_slice(), [item].as_slice());
            match rows.as_slice() {
                [row] => assert_eq!(rt; row.as_slice(), numbers.as_slice()),
                _ => return Err(Fail::from("one row")),
            }
        }
        _ => return Err(Fail::from("a write")),
    }
    match Ask::Raw(bytes(alloc, &[1, 2])?).copy(alloc)? {
        Ask::Raw(payload) => assert_eq!(rt; payload.as_slice(), [1, 2].as_slice()),
        _ => return Err(Fail::from("bytes")),
    }
    Ok(())
}

#[test]
fn whole_raw_frames_state_their_length(rt: HostRuntime) -> Result<(), Fail> {
    let alloc = rt.alloc();
    assert!(rt; RawWire::is_whole(&[0, 4, 0, 0]));
    assert!(rt; !RawWire::is_whole(&[0, 3, 0]));
    assert!(rt; !RawWire::is_whole(&[0, 5, 0, 0]));
    assert!(rt; !RawWire::is_whole(&[0, 3, 0, 0]));
    let mut longest = vec![in alloc; 0; 4096]?;
    longest[0] = 16;
    assert!(rt; RawWire::is_whole(&longest));
    longest.push(0)?;
    longest[1] = 1;
    assert!(rt; !RawWire::is_whole(&longest));
    Ok(())
}
