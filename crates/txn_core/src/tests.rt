use crate::{AddRefusal, Arrival, Phase, Rows, TakeRefusal};
use std::alloc::Global;
use std::process::Abort;
use std::test::Fail;

/// How a request of a test ends.
#[derive(Clone, Copy, Debug, PartialEq, Eq)]
enum Kind {
    Done,
    Cancelled,
    Expired,
    LeaseGone,
    Lost,
}

/// What happens to a table, by owner 1.
#[derive(Clone, Copy)]
enum Event {
    Add { lease: u64, deadline: u64 },
    Send,
    Reply(u16),
    Cancel(u64),
    Tick(u64),
    LeaseEnds(u64),
    Close,
    Take(u64),
}

/// What becomes of it.
#[derive(Clone, Copy, Debug, PartialEq, Eq)]
enum Told {
    Added(u64, u16),
    NotAdded(AddRefusal),
    Sent(u64),
    NothingToSend,
    Came(Arrival),
    Cancelled,
    NotCancelled,
    Ended(usize),
    Took(Kind),
    NotTaken(TakeRefusal),
}

fn add(rt: &impl Abort, rows: &mut Rows<Kind>, lease: u64, deadline: u64) -> Told {
    assert!(rt; rows.drawn() < u64::MAX);
    let full = rows.full();
    let next = rows.next_reference();
    match rows.add(1, lease, deadline) {
        Ok((id, reference)) => {
            assert_eq!(rt; (full, next), (false, Some(reference)));
            assert_eq!(rt; rows.drawn(), id);
            Told::Added(id, reference)
        }
        Err(refusal) => {
            assert_eq!(rt; full, refusal == AddRefusal::Full);
            Told::NotAdded(refusal)
        }
    }
}

fn reply(rows: &mut Rows<Kind>, reference: u16) -> Told {
    let arrival = rows.arrival(reference);
    match arrival {
        Arrival::Row(id) => rows.end(id, true, Kind::Done),
        Arrival::Late => rows.settle(reference),
        Arrival::Stray => {}
    }
    Told::Came(arrival)
}

fn cancel(rows: &mut Rows<Kind>, id: u64) -> Told {
    match rows.phase(1, id) {
        Some(Phase::Queued | Phase::Sent) => {
            rows.end(id, false, Kind::Cancelled);
            Told::Cancelled
        }
        Some(Phase::Ended(_)) | None => Told::NotCancelled,
    }
}

/// Ends at most so many rows, the first that `next` finds at a time.
fn tick(rows: &mut Rows<Kind>, now: u64) -> Told {
    for ended in 0..9 {
        match rows.due(now) {
            None => return Told::Ended(ended),
            Some(id) => rows.end(id, false, Kind::Expired),
        }
    }
    Told::Ended(9)
}

fn end_lease(rows: &mut Rows<Kind>, lease: u64) -> Told {
    for ended in 0..9 {
        match rows.live_of(lease) {
            None => return Told::Ended(ended),
            Some(id) => rows.end(id, false, Kind::LeaseGone),
        }
    }
    Told::Ended(9)
}

fn close(rows: &mut Rows<Kind>) -> Told {
    for ended in 0..9 {
        match rows.first_live() {
            None => return Told::Ended(ended),
            Some(id) => rows.end(id, false, Kind::Lost),
        }
    }
    Told::Ended(9)
}

fn play(rt: &impl Abort, rows: &mut Rows<Kind>, event: Event) -> Told {
    match event {
        Event::Add { lease, deadline } => add(rt, rows, lease, deadline),
        Event::Send => rows.send_next().map_or(Told::NothingToSend, Told::Sent),
        Event::Reply(reference) => reply(rows, reference),
        Event::Cancel(id) => cancel(rows, id),
        Event::Tick(now) => tick(rows, now),
        Event::LeaseEnds(lease) => end_lease(rows, lease),
        Event::Close => close(rows),
        Event::Take(id) => match rows.take(1, id) {
            Ok(kind) => Told::Took(kind),
            Err(refusal) => Told::NotTaken(refusal),
        },
    }
}

/// Plays events on a table of so many references, with a window of 2.
fn check(
    rt: &impl Abort,
    alloc: Global,
    references: u16,
    events: &[(Event, Told)],
) -> Result<(), Fail> {
    let mut rows = Rows::new(alloc, references.max(1), 2)?;
    for (event, told) in events {
        assert_eq!(rt; play(rt, &mut rows, *event), *told);
    }
    Ok(())
}

const ADD: Event = Event::Add {
    lease: 1,
    deadline: 1000,
};

const NONE_FREE: Told = Told::NotAdded(AddRefusal::NoReference);

#[test]
fn a_late_reply_completes_nothing(rt: HostRuntime) -> Result<(), Fail> {
    let events = [
        (ADD, Told::Added(1, 1)),
        (Event::Send, Told::Sent(1)),
        (Event::Cancel(1), Told::Cancelled),
        (Event::Cancel(1), Told::NotCancelled),
        (ADD, Told::Added(2, 2)),
        (ADD, NONE_FREE),
        (Event::Send, Told::Sent(2)),
        (Event::Reply(1), Told::Came(Arrival::Late)),
        (Event::Reply(1), Told::Came(Arrival::Stray)),
        (Event::Take(1), Told::Took(Kind::Cancelled)),
        (Event::Take(1), Told::NotTaken(TakeRefusal::NoRequest)),
        (ADD, Told::Added(3, 1)),
        (Event::Reply(2), Told::Came(Arrival::Row(2))),
        (Event::Take(2), Told::Took(Kind::Done)),
    ];
    check(&rt, rt.alloc(), 2, &events)
}

#[test]
fn references_come_back_in_the_order_of_ends(rt: HostRuntime) -> Result<(), Fail> {
    let events = [
        (ADD, Told::Added(1, 1)),
        (ADD, Told::Added(2, 2)),
        (ADD, Told::Added(3, 3)),
        (Event::Cancel(2), Told::Cancelled),
        (Event::Reply(1), Told::Came(Arrival::Stray)),
        (Event::Send, Told::Sent(1)),
        (Event::Reply(1), Told::Came(Arrival::Row(1))),
        (ADD, Told::Added(4, 2)),
        (ADD, Told::Added(5, 1)),
        (ADD, NONE_FREE),
    ];
    check(&rt, rt.alloc(), 3, &events)
}

#[test]
fn the_window_bounds_what_is_sent_and_live(rt: HostRuntime) -> Result<(), Fail> {
    let events = [
        (Event::Send, Told::NothingToSend),
        (ADD, Told::Added(1, 1)),
        (ADD, Told::Added(2, 2)),
        (ADD, Told::Added(3, 3)),
        (Event::Send, Told::Sent(1)),
        (Event::Send, Told::Sent(2)),
        (Event::Send, Told::NothingToSend),
        (Event::Cancel(1), Told::Cancelled),
        (Event::Send, Told::Sent(3)),
        (Event::Take(3), Told::NotTaken(TakeRefusal::Pending)),
    ];
    check(&rt, rt.alloc(), 3, &events)
}

#[test]
fn due_leases_and_closes_end_their_own(rt: HostRuntime) -> Result<(), Fail> {
    let later = Event::Add {
        lease: 2,
        deadline: 2000,
    };
    let events = [
        (ADD, Told::Added(1, 1)),
        (later, Told::Added(2, 2)),
        (ADD, Told::Added(3, 3)),
        (later, Told::Added(4, 4)),
        (Event::Send, Told::Sent(1)),
        (Event::Tick(999), Told::Ended(0)),
        (Event::Tick(1000), Told::Ended(2)),
        (Event::Reply(1), Told::Came(Arrival::Late)),
        (Event::Take(1), Told::Took(Kind::Expired)),
        (later, Told::Added(5, 5)),
        (ADD, Told::Added(6, 3)),
        (Event::LeaseEnds(1), Told::Ended(1)),
        (Event::Close, Told::Ended(3)),
        (Event::Take(6), Told::Took(Kind::LeaseGone)),
        (Event::Take(4), Told::Took(Kind::Lost)),
        (Event::Close, Told::Ended(0)),
    ];
    check(&rt, rt.alloc(), 5, &events)
}

#[test]
fn another_owner_has_no_such_request(rt: HostRuntime) -> Result<(), Fail> {
    let mut rows = Rows::new(rt.alloc(), 1, 1)?;
    assert_eq!(rt; add(&rt, &mut rows, 7, 7), Told::Added(1, 1));
    assert_eq!(rt; rows.phase(2, 1), None);
    assert_eq!(rt; rows.phase(1, 1), Some(Phase::Queued));
    assert_eq!(rt; rows.take(2, 1), Err(TakeRefusal::NoRequest));
    Ok(())
}

#[test]
fn a_full_table_refuses_before_references_run_out(rt: HostRuntime) -> Result<(), Fail> {
    let mut rows = Rows::new(rt.alloc(), 65535, 64)?;
    for _ in 0..1024 {
        let told = add(&rt, &mut rows, 1, 1);
        assert!(rt; matches!(told, Told::Added(..)));
    }
    assert_eq!(rt; add(&rt, &mut rows, 1, 1), Told::NotAdded(AddRefusal::Full));
    assert_eq!(rt; cancel(&mut rows, 1024), Told::Cancelled);
    assert_eq!(rt; add(&rt, &mut rows, 1, 1), Told::NotAdded(AddRefusal::Full));
    assert_eq!(rt; rows.take(1, 1024), Ok(Kind::Cancelled));
    assert_eq!(rt; add(&rt, &mut rows, 1, 1), Told::Added(1025, 1025));
    Ok(())
}
