use crate::{
    AskRefusal, CancelRefusal, ConnState, FrameAnswer, FrameRefusal, LeaseAnswer, LeaseRefusal,
    LeaseState, SendRefusal, Settings, SubmitRefusal, TakeRefusal, Ticked,
};
use node_tree::OwnedList;
use std::alloc::Global;
use std::process::Abort;
use std::test::Fail;
use wire_frames::{Ask, EndKind, FrameWhy, PlcValue, RawWire, Reason, Wire};

const SETTINGS: Settings = Settings {
    references: 2,
    window: 8,
    share: 1,
    journal: 64,
    lease_ms: 60000,
    wait_ms: 60000,
};

/// A line of a script. Requests are handed in at the moment 0, for a second, with the payload AA; `Submit`, `Cancel`, `Collect`,
/// `Close` and `Shutdown` are by actor 1.
#[derive(Clone, Copy)]
enum Line {
    Ask(u32, u64),
    Poll(u32, u64),
    Release(u32, u64, u64),
    Submit { lease: u64 },
    Send,
    Frame(&'static [u8]),
    Cancel(u64),
    Collect(u64),
    Tick(u64),
    Close(Reason),
    Shutdown,
}

/// What it is answered. A sending is told by its id and its reference.
#[derive(Clone, Copy, Debug, PartialEq, Eq)]
enum Said {
    Asked(LeaseAnswer),
    NotAsked(AskRefusal),
    Polled(LeaseState),
    NoLease(LeaseRefusal),
    Released,
    Started(u64, u16),
    NotStarted(SubmitRefusal),
    Sent(u64, u16),
    NotSent(SendRefusal),
    Came(FrameAnswer),
    NotTaken(FrameRefusal),
    Cancelled,
    NotCancelled(CancelRefusal),
    Collected(EndKind),
    NotCollected(TakeRefusal),
    Ticked(u32, u32, u32),
    Closed,
    NotClosed(Reason),
}

fn submit<W: Wire>(alloc: Global, state: &mut ConnState<W>, lease: u64) -> Result<Said, Fail> {
    let ask = Ask::Raw(OwnedList::from_slice(alloc, &[0xaa])?);
    if !state.admits(&ask) {
        return Err(Fail::from("not admitted"));
    }
    match state.submit(1, lease, ask, 1000, 0) {
        Ok(accepted) => Ok(Said::Started(accepted.id, accepted.reference)),
        Err(refusal) => Ok(Said::NotStarted(refusal)),
    }
}

fn send<W: Wire>(rt: &impl Abort, state: &mut ConnState<W>) -> Said {
    match state.take_send(0) {
        Ok(sending) => {
            let [high, low] = sending.reference.to_be_bytes();
            assert_eq!(rt;
                sending.frame.as_slice(),
                [0, 5, high, low, 0xaa].as_slice()
            );
            Said::Sent(sending.id, sending.reference)
        }
        Err(refusal) => Said::NotSent(refusal),
    }
}

fn play_lease<W: Wire>(state: &mut ConnState<W>, line: Line) -> Said {
    match line {
        Line::Ask(actor, now) => match state.ask_lease(actor, now) {
            Ok(answer) => Said::Asked(answer),
            Err(refusal) => Said::NotAsked(refusal),
        },
        Line::Poll(actor, lease) => match state.poll_lease(actor, lease) {
            Ok(found) => Said::Polled(found),
            Err(refusal) => Said::NoLease(refusal),
        },
        Line::Release(actor, lease, now) => match state.release(actor, lease, now) {
            Ok(()) => Said::Released,
            Err(refusal) => Said::NoLease(refusal),
        },
        Line::Tick(now) => {
            let Ticked {
                rows,
                leases,
                waiters,
            } = state.tick(0, now);
            Said::Ticked(rows, leases, waiters)
        }
        _ => match state.shutdown(1) {
            Ok(()) => Said::Closed,
            Err(reason) => Said::NotClosed(reason),
        },
    }
}

fn close<W: Wire>(state: &mut ConnState<W>, reason: Reason) -> Said {
    if matches!(reason, Reason::Worn) {
        return Said::NotClosed(reason);
    }
    match state.close(1, reason) {
        Ok(()) => Said::Closed,
        Err(stands) => Said::NotClosed(stands),
    }
}

fn play<W: Wire>(
    rt: &impl Abort,
    alloc: Global,
    state: &mut ConnState<W>,
    line: Line,
) -> Result<Said, Fail> {
    match line {
        Line::Submit { lease } => submit(alloc, state, lease),
        Line::Send => Ok(send(rt, state)),
        Line::Frame(bytes) => {
            let frame = OwnedList::from_slice(alloc, bytes)?;
            match state.apply_frame(0, frame) {
                Ok(answer) => Ok(Said::Came(answer)),
                Err(refusal) => Ok(Said::NotTaken(refusal)),
            }
        }
        Line::Cancel(id) => match state.cancel(1, id) {
            Ok(()) => Ok(Said::Cancelled),
            Err(refusal) => Ok(Said::NotCancelled(refusal)),
        },
        Line::Collect(id) => match state.collect(1, id) {
            Ok(outcome) => Ok(Said::Collected(outcome.kind)),
            Err(refusal) => Ok(Said::NotCollected(refusal)),
        },
        Line::Close(reason) => Ok(close(state, reason)),
        other => Ok(play_lease(state, other)),
    }
}

fn check_lines<W: Wire>(
    rt: &impl Abort,
    alloc: Global,
    state: &mut ConnState<W>,
    lines: &[(Line, Said)],
) -> Result<(), Fail> {
    for (line, said) in lines {
        assert_eq!(rt; play(rt, alloc, state, *line)?, *said);
    }
    Ok(())
}

/// An open connection with settings that lie in their ranges.
fn open(alloc: Global, settings: Settings) -> Result<ConnState<RawWire>, Fail> {
    if !settings.are_in_range() {
        return Err(Fail::from("settings out of range"));
    }
    Ok(ConnState::new(alloc, RawWire, settings)?)
}

/// Takes what may go to another thread.
fn across<T: Send>(value: T) -> T {
    value
}

/// Runs a script, and counts the entries.
fn run(
    rt: &impl Abort,
    alloc: Global,
    settings: Settings,
    lines: &[(Line, Said)],
    entries: usize,
) -> Result<(), Fail> {
    let mut state = across(open(alloc, settings)?);
    check_lines(rt, alloc, &mut state, lines)?;
    assert_eq!(rt; state.journal().len(), entries);
    assert_eq!(rt; across(state.into_journal()).len(), entries);
    Ok(())
}

/// Runs a script on a connection whose lease 1 actor 1 holds, over so many references.
fn run_leased(
    rt: &impl Abort,
    alloc: Global,
    references: u16,
    lines: &[(Line, Said)],
    entries: usize,
) -> Result<(), Fail> {
    let settings = Settings {
        references,
        ..SETTINGS
    };
    let mut state = open(alloc, settings)?;
    check_lines(rt, alloc, &mut state, &[(ASK, GRANTED)])?;
    check_lines(rt, alloc, &mut state, lines)?;
    assert_eq!(rt; state.journal().len(), entries);
    Ok(())
}

const ASK: Line = Line::Ask(1, 0);

const GRANTED: Said = Said::Asked(LeaseAnswer::Granted { lease: 1 });

const SUBMIT: Line = Line::Submit { lease: 1 };

const REPLY: Line = Line::Frame(&[0, 5, 0, 1, 0xbb]);

const LATE: Said = Said::Came(FrameAnswer::Late { reference: 1 });

const ENDED: Said = Said::Came(FrameAnswer::Ended {
    id: 1,
    kind: EndKind::Done,
});

const NO_LEASE: Said = Said::NoLease(LeaseRefusal::NoLease);

#[test]
fn a_sent_request_that_is_cancelled_keeps_its_reference(rt: HostRuntime) -> Result<(), Fail> {
    let lines = [
        (SUBMIT, Said::Started(1, 1)),
        (Line::Send, Said::Sent(1, 1)),
        (Line::Cancel(1), Said::Cancelled),
        (SUBMIT, Said::Started(2, 2)),
        (Line::Send, Said::Sent(2, 2)),
        (REPLY, LATE),
        (Line::Collect(1), Said::Collected(EndKind::Cancelled)),
        (SUBMIT, Said::Started(3, 1)),
    ];
    run_leased(&rt, rt.alloc(), 2, &lines, 9)?;
    let lines = [
        (SUBMIT, Said::Started(1, 1)),
        (Line::Send, Said::Sent(1, 1)),
        (Line::Cancel(1), Said::Cancelled),
        (SUBMIT, Said::NotStarted(SubmitRefusal::NoReference)),
        (REPLY, LATE),
        (SUBMIT, Said::Started(2, 1)),
    ];
    run_leased(&rt, rt.alloc(), 1, &lines, 6)?;
    let lines = [
        (SUBMIT, Said::Started(1, 1)),
        (Line::Cancel(1), Said::Cancelled),
        (SUBMIT, Said::Started(2, 1)),
        (Line::Send, Said::Sent(2, 1)),
    ];
    run_leased(&rt, rt.alloc(), 1, &lines, 5)
}

#[test]
fn a_reply_ends_the_request_that_was_sent(rt: HostRuntime) -> Result<(), Fail> {
    let ended = CancelRefusal::AlreadyEnded(EndKind::Done);
    let lines = [
        (SUBMIT, Said::Started(1, 1)),
        (REPLY, Said::Came(FrameAnswer::Stray { reference: 1 })),
        (Line::Collect(1), Said::NotCollected(TakeRefusal::Pending)),
        (Line::Send, Said::Sent(1, 1)),
        (Line::Send, Said::NotSent(SendRefusal::Nothing)),
        (REPLY, ENDED),
        (Line::Cancel(1), Said::NotCancelled(ended)),
        (Line::Collect(1), Said::Collected(EndKind::Done)),
        (
            Line::Cancel(1),
            Said::NotCancelled(CancelRefusal::NoRequest),
        ),
        (Line::Collect(1), Said::NotCollected(TakeRefusal::NoRequest)),
        (
            Line::Submit { lease: 2 },
            Said::NotStarted(SubmitRefusal::NoLease),
        ),
    ];
    run_leased(&rt, rt.alloc(), 2, &lines, 6)
}

#[test]
fn a_request_expires_at_its_deadline_and_its_reply_is_late(rt: HostRuntime) -> Result<(), Fail> {
    let lines = [
        (SUBMIT, Said::Started(1, 1)),
        (Line::Send, Said::Sent(1, 1)),
        (Line::Tick(999), Said::Ticked(0, 0, 0)),
        (Line::Tick(1000), Said::Ticked(1, 0, 0)),
        (REPLY, LATE),
        (Line::Collect(1), Said::Collected(EndKind::Expired)),
    ];
    run_leased(&rt, rt.alloc(), 2, &lines, 6)
}

fn waiting(lease: u64, place: u8) -> Said {
    Said::Asked(LeaseAnswer::Waiting { lease, place })
}

#[test]
fn waiters_are_granted_in_order_as_leases_end(rt: HostRuntime) -> Result<(), Fail> {
    let settings = Settings {
        lease_ms: 100,
        wait_ms: 50,
        ..SETTINGS
    };
    let lines = [
        (ASK, GRANTED),
        (Line::Ask(2, 0), waiting(2, 0)),
        (Line::Tick(50), Said::Ticked(0, 0, 1)),
        (Line::Poll(2, 2), NO_LEASE),
        (Line::Ask(2, 60), waiting(3, 0)),
        (Line::Tick(100), Said::Ticked(0, 1, 0)),
        (Line::Poll(2, 3), Said::Polled(LeaseState::Held)),
        (Line::Poll(1, 1), NO_LEASE),
    ];
    run(&rt, rt.alloc(), settings, &lines, 5)?;
    let lines = [
        (ASK, GRANTED),
        (Line::Ask(2, 0), waiting(2, 0)),
        (Line::Ask(3, 0), waiting(3, 1)),
        (
            Line::Poll(3, 3),
            Said::Polled(LeaseState::Waiting { place: 1 }),
        ),
        (SUBMIT, Said::Started(1, 1)),
        (Line::Release(2, 1, 10), NO_LEASE),
        (Line::Release(1, 1, 10), Said::Released),
        (Line::Collect(1), Said::Collected(EndKind::LeaseGone)),
        (Line::Poll(2, 2), Said::Polled(LeaseState::Held)),
        (
            Line::Poll(3, 3),
            Said::Polled(LeaseState::Waiting { place: 0 }),
        ),
        (Line::Tick(109), Said::Ticked(0, 0, 1)),
        (Line::Tick(110), Said::Ticked(0, 1, 0)),
        (Line::Poll(2, 2), NO_LEASE),
    ];
    run(&rt, rt.alloc(), settings, &lines, 8)
}

#[test]
fn the_queue_is_full_behind_64_waiters(rt: HostRuntime) -> Result<(), Fail> {
    for share in [1u8, 64] {
        let settings = Settings {
            share,
            journal: 256,
            ..SETTINGS
        };
        let mut state = open(rt.alloc(), settings)?;
        let held = u64::from(share);
        for lease in 1..=held {
            assert_eq!(rt; state.ask_lease(1, 0), Ok(LeaseAnswer::Granted { lease }));
        }
        for place in 0u8..64 {
            let lease = held + u64::from(place) + 1;
            let answer = state.ask_lease(1, 0);
            assert_eq!(rt; answer, Ok(LeaseAnswer::Waiting { lease, place }));
        }
        assert_eq!(rt; state.ask_lease(1, 0), Err(AskRefusal::QueueFull));
        assert_eq!(rt; state.journal().len(), usize::from(share) + 64);
    }
    Ok(())
}

#[test]
fn a_full_journal_closes_the_table(rt: HostRuntime) -> Result<(), Fail> {
    let alloc = rt.alloc();
    let mut state = open(alloc, SETTINGS)?;
    check_lines(&rt, alloc, &mut state, &[(ASK, GRANTED)])?;
    for id in 1u64..21 {
        let reference = if id % 2 == 1 { 1 } else { 2 };
        let lines = [
            (SUBMIT, Said::Started(id, reference)),
            (Line::Cancel(id), Said::Cancelled),
            (Line::Collect(id), Said::Collected(EndKind::Cancelled)),
        ];
        check_lines(&rt, alloc, &mut state, &lines)?;
    }
    let lost = EndKind::Lost(Reason::Worn);
    let lines = [
        (SUBMIT, Said::Started(21, 1)),
        (SUBMIT, Said::Started(22, 2)),
        (Line::Cancel(21), Said::Cancelled),
        (Line::Collect(21), Said::Collected(EndKind::Cancelled)),
        (Line::Collect(22), Said::Collected(lost)),
        (
            SUBMIT,
            Said::NotStarted(SubmitRefusal::Closed(Reason::Worn)),
        ),
        (
            Line::Close(Reason::PeerEnded),
            Said::NotClosed(Reason::Worn),
        ),
    ];
    check_lines(&rt, alloc, &mut state, &lines)?;
    assert_eq!(rt; state.closed(), Some(Reason::Worn));
    assert_eq!(rt; state.journal().len(), 67);
    Ok(())
}

#[test]
fn a_frame_that_cannot_be_read_closes_the_table(rt: HostRuntime) -> Result<(), Fail> {
    let why = FrameWhy::Length { got: 3 };
    let reason = Reason::Undecodable { index: 0, why };
    let lines = [
        (SUBMIT, Said::Started(1, 1)),
        (Line::Send, Said::Sent(1, 1)),
        (
            Line::Frame(&[0, 3]),
            Said::Came(FrameAnswer::Undecodable { index: 0, why }),
        ),
        (Line::Collect(1), Said::Collected(EndKind::Lost(reason))),
        (Line::Ask(2, 0), Said::NotAsked(AskRefusal::Closed(reason))),
        (
            Line::Poll(1, 1),
            Said::NoLease(LeaseRefusal::Closed(reason)),
        ),
        (
            Line::Release(1, 1, 0),
            Said::NoLease(LeaseRefusal::Closed(reason)),
        ),
        (SUBMIT, Said::NotStarted(SubmitRefusal::Closed(reason))),
        (Line::Send, Said::NotSent(SendRefusal::Closed(reason))),
        (REPLY, Said::NotTaken(FrameRefusal::Closed(reason))),
        (Line::Tick(90_000), Said::Ticked(0, 0, 0)),
        (Line::Shutdown, Said::NotClosed(reason)),
    ];
    run_leased(&rt, rt.alloc(), 2, &lines, 5)
}

#[test]
fn a_shutdown_loses_what_is_queued(rt: HostRuntime) -> Result<(), Fail> {
    let lost = EndKind::Lost(Reason::Asked);
    let lines = [
        (SUBMIT, Said::Started(1, 1)),
        (Line::Shutdown, Said::Closed),
        (Line::Shutdown, Said::NotClosed(Reason::Asked)),
        (Line::Collect(1), Said::Collected(lost)),
    ];
    run_leased(&rt, rt.alloc(), 2, &lines, 4)?;
    let lost = EndKind::Lost(Reason::PeerEnded);
    let lines = [
        (SUBMIT, Said::Started(1, 1)),
        (Line::Close(Reason::PeerEnded), Said::Closed),
        (Line::Collect(1), Said::Collected(lost)),
    ];
    run_leased(&rt, rt.alloc(), 2, &lines, 4)
}

/// Ends the request that was sent under a reference of the same number, and collects it.
fn answer_and_collect(
    rt: &impl Abort,
    alloc: Global,
    state: &mut ConnState<RawWire>,
    reference: u16,
) -> Result<(), Fail> {
    let [high, low] = reference.to_be_bytes();
    let frame = OwnedList::from_slice(alloc, &[0, 5, high, low, 0xbb])?;
    let id = u64::from(reference);
    let kind = EndKind::Done;
    let answer = state.apply_frame(0, frame);
    assert_eq!(rt; answer, Ok(FrameAnswer::Ended { id, kind }));
    match state.collect(1, id) {
        Ok(outcome) => match outcome.values.as_slice() {
            [row] => assert_eq!(rt; row.as_slice(), [PlcValue::Whole(187)].as_slice()),
            _ => return Err(Fail::from("one row")),
        },
        Err(_) => return Err(Fail::from("not collected")),
    }
    Ok(())
}

#[test]
fn at_most_1024_rows_are_kept_and_each_is_served(rt: HostRuntime) -> Result<(), Fail> {
    let alloc = rt.alloc();
    let settings = Settings {
        references: 2000,
        window: 64,
        journal: 262_144,
        ..SETTINGS
    };
    let mut state = open(alloc, settings)?;
    check_lines(&rt, alloc, &mut state, &[(ASK, GRANTED)])?;
    for id in 1u16..=1024 {
        let said = submit(alloc, &mut state, 1)?;
        assert_eq!(rt; said, Said::Started(u64::from(id), id));
    }
    let said = submit(alloc, &mut state, 1)?;
    assert_eq!(rt; said, Said::NotStarted(SubmitRefusal::TableFull));
    assert_eq!(rt; state.journal().len(), 1025);
    for place in 1u16..=64 {
        assert_eq!(rt; send(&rt, &mut state), Said::Sent(u64::from(place), place));
    }
    assert_eq!(rt; send(&rt, &mut state), Said::NotSent(SendRefusal::Nothing));
    for place in 1u16..=64 {
        answer_and_collect(&rt, alloc, &mut state, place)?;
    }
    assert_eq!(rt; submit(alloc, &mut state, 1)?, Said::Started(1025, 1025));
    Ok(())
}

const LEAST: Settings = Settings {
    references: 1,
    window: 1,
    share: 1,
    journal: 64,
    lease_ms: 1,
    wait_ms: 1,
};

const MOST: Settings = Settings {
    references: 65_535,
    window: 64,
    share: 64,
    journal: 262_144,
    lease_ms: 86_400_000,
    wait_ms: 86_400_000,
};

#[test]
fn settings_at_the_ends_of_their_ranges_serve(rt: HostRuntime) -> Result<(), Fail> {
    for settings in [LEAST, MOST] {
        let lines = [
            (ASK, GRANTED),
            (SUBMIT, Said::Started(1, 1)),
            (Line::Send, Said::Sent(1, 1)),
            (REPLY, ENDED),
            (Line::Collect(1), Said::Collected(EndKind::Done)),
        ];
        run(&rt, rt.alloc(), settings, &lines, 5)?;
    }
    for (references, window, share, journal) in [
        (0, 1, 1, 64),
        (1, 0, 1, 64),
        (1, 65, 1, 64),
        (1, 1, 0, 64),
        (1, 1, 65, 64),
        (1, 1, 1, 63),
        (1, 1, 1, 262_145),
    ] {
        let settings = Settings {
            references,
            window,
            share,
            journal,
            ..LEAST
        };
        assert!(rt; !settings.are_in_range());
    }
    for (lease_ms, wait_ms) in [(0, 1), (1, 0), (86_400_001, 1), (1, 86_400_001)] {
        let settings = Settings {
            lease_ms,
            wait_ms,
            ..LEAST
        };
        assert!(rt; !settings.are_in_range());
    }
    Ok(())
}
