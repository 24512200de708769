ghost use Rattle.std.specs.Prelude.{◌<◌, ◌≤◌, ◌+◌};

use crate::{LeaseAnswer, LeaseState, Leases, QueueFull};
use std::test::Fail;

fn ask(leases: &mut Leases, owner: u32, now: u64) -> Result<LeaseAnswer, QueueFull>
    requires { leases.old.drawn < 1000 }
    ensures { leases.new.drawn ≤ leases.old.drawn + 1 }
{
    leases.ask(owner, now)
}

/// One lease at a time, for 100 milliseconds; it is waited for 50.
#[test]
fn a_waiter_gives_up_and_another_is_granted(rt: HostRuntime) -> Result<(), Fail> {
    let mut leases = Leases::new(rt.alloc(), 1, 100, 50)?;
    let first = ask(&mut leases, 1, 0);
    assert_eq!(rt; first, Ok(LeaseAnswer::Granted { lease: 1 }));
    let second = ask(&mut leases, 2, 0);
    assert_eq!(rt; second, Ok(LeaseAnswer::Waiting { lease: 2, place: 0 }));
    assert_eq!(rt; leases.due_held(50), None);
    assert_eq!(rt; leases.due_waiting(49), None);
    assert_eq!(rt; leases.due_waiting(50), Some(2));
    assert_eq!(rt; leases.state(2, 2), Some(LeaseState::Waiting { place: 0 }));
    leases.drop_lease(2);
    assert_eq!(rt; leases.grant(50), None);
    assert_eq!(rt; leases.state(2, 2), None);
    let third = ask(&mut leases, 2, 60);
    assert_eq!(rt; third, Ok(LeaseAnswer::Waiting { lease: 3, place: 0 }));
    assert_eq!(rt; leases.due_held(100), Some(1));
    leases.drop_lease(1);
    assert_eq!(rt; leases.due_waiting(100), None);
    assert_eq!(rt; leases.grant(100), Some(3));
    assert_eq!(rt; leases.state(2, 3), Some(LeaseState::Held));
    assert_eq!(rt; leases.state(1, 1), None);
    assert_eq!(rt; leases.due_held(199), None);
    assert_eq!(rt; leases.due_held(200), Some(3));
    Ok(())
}

/// One lease is held, 64 are waited for, and the next is refused.
#[test]
fn the_queue_is_full_behind_64_waiters(rt: HostRuntime) -> Result<(), Fail> {
    let mut leases = Leases::new(rt.alloc(), 1, 100, 50)?;
    let first = ask(&mut leases, 1, 0);
    assert_eq!(rt; first, Ok(LeaseAnswer::Granted { lease: 1 }));
    for place in 0..64u8 {
        let answer = ask(&mut leases, 1, 0);
        let lease = u64::from(place) + 2;
        assert_eq!(rt; answer, Ok(LeaseAnswer::Waiting { lease, place }));
    }
    assert_eq!(rt; ask(&mut leases, 1, 0), Err(QueueFull));
    assert_eq!(rt; leases.grant(0), None);
    leases.clear();
    assert_eq!(rt; leases.state(1, 1), None);
    assert_eq!(rt; leases.state(1, 65), None);
    assert_eq!(rt;
        ask(&mut leases, 1, 0),
        Ok(LeaseAnswer::Granted { lease: 66 })
    );
    Ok(())
}

/// Two leases at a time; every deadline ends at the greatest moment.
#[test]
fn leases_are_granted_in_order_at_the_clocks_end(rt: HostRuntime) -> Result<(), Fail> {
    let mut leases = Leases::new(rt.alloc(), 2, 86_400_000, 86_400_000)?;
    for lease in 1..5u64 {
        let answer = ask(&mut leases, lease as u32, u64::MAX - 1);
        assert!(rt; answer.is_ok());
    }
    assert_eq!(rt; leases.state(4, 4), Some(LeaseState::Waiting { place: 1 }));
    assert_eq!(rt; leases.state(3, 4), None);
    assert_eq!(rt; leases.due_held(u64::MAX - 1), None);
    assert_eq!(rt; leases.due_held(u64::MAX), Some(1));
    assert_eq!(rt; leases.due_waiting(u64::MAX), Some(3));
    assert_eq!(rt; leases.state(2, 2), Some(LeaseState::Held));
    leases.drop_lease(2);
    assert_eq!(rt; leases.grant(u64::MAX), Some(3));
    assert_eq!(rt; leases.grant(u64::MAX), None);
    assert_eq!(rt; leases.state(4, 4), Some(LeaseState::Waiting { place: 0 }));
    Ok(())
}
