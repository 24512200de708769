ghost use Rattle.std.specs.Prelude.{◌≡◌, ◌↔◌, ◌+◌, ◌-◌, ◌^◌, ◌<◌, ◌≤◌, ◌∷◌, [], ◌⊎◌, length, IfOk, IfSome, IsErr, IsNone, IsTrue, MatchOption, OnErr, OnOk, OnSome, IfNone};
ghost use Rattle.lease_core.specs.LeaseSteps.{asked, asked_answer, cleared, dropped, granted, granted_all, held_due_dropped, next_granted, waiting_due_dropped};
ghost use Rattle.lease_core.specs.LeaseTables.{IsLeast, IsLeaseTable, due_numbers, held_limit, is_known, no_leases, state_of, time_limit, waiters_limit};

use crate::answers::{LeaseAnswer, LeaseState, QueueFull};
use crate::lists::{KeptLease, find_deadline, first_due, is_among, place_of, remove_numbered};
use std::alloc::{AllocError, Global};
use std::marker::Model;

/// How many leases may be held.
const MAX_HELD: usize = 64;

/// How many leases may be waited for.
const MAX_WAITERS: usize = 64;

/// Who holds a lease, and who waits for one, in order. It has no clock: each call that depends on a moment, in milliseconds,
/// takes it. All room is taken when it is made.
#[derive(Drop)]
pub struct Leases {
    share: u8,
    lease_ms: u32,
    wait_ms: u32,
    held: Vec<KeptLease>,
    waiting: Vec<KeptLease>,
    drawn: u64,
}

impl Model for Leases {
    ghost use Rattle.std.specs.Vec.{vec_capacity};
    ghost use Rattle.lease_core.specs.KeptLeases.{IsKept, table_of};
    ghost use Rattle.lease_core.specs.LeaseTables.{LeaseTable};

    ghost Value = { LeaseTable };

    ghost view = { λ a. table_of a.share a.lease_ms a.wait_ms a.held.items a.waiting.items a.drawn };

    ghost invariant = { λ a. IsKept (vec_capacity a.held) (vec_capacity a.waiting)
        (table_of a.share a.lease_ms a.wait_ms a.held.items a.waiting.items a.drawn) };
}

impl Leases {
    /// No lease, held or waited for. At most `share` are to be held at a time, from 1 to 64, each for `lease_ms`; each is waited for
    /// at most `wait_ms`. Both times are in milliseconds, from 1 to 86,400,000. An `Err` is want of memory: no later call
    /// takes any.
    pub fn new(alloc: Global, share: u8, lease_ms: u32, wait_ms: u32) -> Result<Leases, AllocError>
        requires share { (1 ≤ share) × (share ≤ held_limit) }
        requires lease_ms { (1 ≤ lease_ms) × (lease_ms ≤ time_limit) }
        requires wait_ms { (1 ≤ wait_ms) × (wait_ms ≤ time_limit) }
        ensures table { IfOk result (λ leases. leases ≡ no_leases share lease_ms wait_ms) }
        ensures lawful { IfOk result IsLeaseTable }
    {
        let held = Vec::with_capacity(alloc, MAX_HELD)?;
        let waiting = Vec::with_capacity(alloc, MAX_WAITERS)?;
        Ok(Leases {
            share,
            lease_ms,
            wait_ms,
            held,
            waiting,
            drawn: 0,
        })
    }

    /// Asks for a lease. It is held at once, where fewer than `share` are and none is waited for, and else waited for. Its time runs
    /// from the moment. Refused where 64 wait; a refused one draws no number.
    pub fn ask(&mut self, owner: u32, now: u64) -> Result<LeaseAnswer, QueueFull>
        requires { self.old.drawn < 2 ^ 64 - 1 }
        ensures queue_full { IsErr result ↔ (length self.old.waiting ≡ waiters_limit) }
        ensures answer { IfOk result (λ answer. answer ≡ asked_answer self.old) }
        ensures asked { OnOk result (self.new ≡ asked self.old owner now) }
        ensures unchanged { OnErr result (self.new ≡ self.old) }
        ensures lawful { IsLeaseTable self.new }
    {
        if self.waiting.len() >= MAX_WAITERS {
            return Err(QueueFull);
        }
        let is_held_at_once = self.held.len() < usize::from(self.share) && self.waiting.is_empty();
        let lease = self.drawn + 1;
        self.drawn = lease;
        if is_held_at_once {
            self.held.push_reserved(KeptLease {
                number: lease,
                owner,
                deadline: find_deadline(now, self.lease_ms),
            });
            return Ok(LeaseAnswer::Granted { lease });
        }
        let place = self.waiting.len() as u8;
        self.waiting.push_reserved(KeptLease {
            number: lease,
            owner,
            deadline: find_deadline(now, self.wait_ms),
        });
        Ok(LeaseAnswer::Waiting { lease, place })
    }

    /// What a lease is to an owner: `None` where the owner neither holds nor waits for one with this number.
    pub fn state(&self, owner: u32, lease: u64) -> Option<LeaseState>
        ensures state { result ≡ state_of self.now owner lease }
        ensures known { OnSome result (IsTrue (is_known self.now lease)) }
        ensures lawful { IsLeaseTable self.now }
    {
        if is_among(&self.held, owner, lease) {
            return Some(LeaseState::Held);
        }
        let place = place_of(&self.waiting, owner, lease)?;
        Some(LeaseState::Waiting { place: place as u8 })
    }

    /// Takes away a lease that is held or waited for. Nobody is granted one in its place: see `grant`.
    pub fn drop_lease(&mut self, lease: u64)
        requires { IsTrue (is_known self.old lease) }
        ensures dropped { self.new ≡ dropped self.old lease }
        ensures lawful { IsLeaseTable self.new }
    {
        remove_numbered(&mut self.held, lease);
        remove_numbered(&mut self.waiting, lease);
    }

    /// The least number of a held lease whose deadline is the moment or before it.
    pub fn due_held(&self, now: u64) -> Option<u64>
        ensures least { MatchOption result (due_numbers now self.now.held ≡ []) (IsLeast (due_numbers now self.now.held)) }
        ensures known { IfSome result (λ lease. IsTrue (is_known self.now lease)) }
        // Those that are due after it are the ones that are left when it is dropped, and so is what dropping all of them leaves.
        ensures rest { IfSome result (λ lease. due_numbers now self.now.held
            ≡ lease ∷ due_numbers now (dropped self.now lease).held) }
        ensures dropped { MatchOption result (held_due_dropped self.now now ≡ self.now)
            (λ lease. held_due_dropped (dropped self.now lease) now ≡ held_due_dropped self.now now) }
        ensures lawful { IsLeaseTable self.now }
    {
        first_due(&self.held, now)
    }

    /// The least number of a lease that is waited for and whose deadline is the moment or before it.
    pub fn due_waiting(&self, now: u64) -> Option<u64>
        ensures least { MatchOption result (due_numbers now self.now.waiting ≡ []) (IsLeast (due_numbers now self.now.waiting)) }
        ensures known { IfSome result (λ lease. IsTrue (is_known self.now lease)) }
        // Those that are due after it are the ones that are left when it is dropped, and so is what dropping all of them leaves.
        ensures rest { IfSome result (λ lease. due_numbers now self.now.waiting
            ≡ lease ∷ due_numbers now (dropped self.now lease).waiting) }
        ensures dropped { MatchOption result (waiting_due_dropped self.now now ≡ self.now)
            (λ lease. waiting_due_dropped (dropped self.now lease) now ≡ waiting_due_dropped self.now now) }
        ensures lawful { IsLeaseTable self.now }
    {
        first_due(&self.waiting, now)
    }

    /// Lets the first waiter hold its lease, from the moment on, where fewer than `share` leases are held, and gives its number.
    pub fn grant(&mut self, now: u64) -> Option<u64>
        ensures number { result ≡ next_granted self.old }
        ensures none { IsNone result ↔ ((self.old.waiting ≡ []) ⊎ (self.old.share ≤ length self.old.held)) }
        ensures granted { self.new ≡ granted self.old now }
        ensures fewer { OnSome result (length self.new.waiting + 1 ≡ length self.old.waiting) }
        // Granting one after another, until none is, grants all that there is room for.
        ensures all { granted_all self.new now ≡ granted_all self.old now }
        ensures last { IfNone result (granted_all self.old now ≡ self.old) }
        ensures lawful { IsLeaseTable self.new }
    {
        if self.held.len() >= usize::from(self.share) || self.waiting.is_empty() {
            return None;
        }
        let first = self.waiting.remove(0);
        let deadline = find_deadline(now, self.lease_ms);
        self.held.push_reserved(KeptLease { deadline, ..first });
        Some(first.number)
    }

    /// Drops all leases, held or waited for.
    pub fn clear(&mut self)
        ensures cleared { self.new ≡ cleared self.old }
        ensures lawful { IsLeaseTable self.new }
    {
        self.held.clear();
        self.waiting.clear();
    }
}
