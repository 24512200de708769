ghost use Rattle.std.specs.Prelude.{◌≡◌, ◌<◌, ◌-◌, ◌^◌, IsTrue, OnErr, OnOk, if◌then◌else◌};
ghost use Rattle.lease_core.specs.LeaseTables.{IsLeaseTable, is_known};
ghost use Rattle.txn_core.specs.RowTables.{IsRowTable, has_live, phase_of};

use crate::answers::{AskRefusal, CancelRefusal, LeaseRefusal, Ticked};
use crate::ends::{drop_held, drop_waiting, expire, grant_waiters, lose_all, lose_lease};
use crate::handed::HandedIn;
use lease_core::{LeaseAnswer, Leases, QueueFull};
use txn_core::{Phase, Rows};
use wire_frames::{EndKind, Reason};

/// The table of a connection: its requests, with one item of `handed` for each, in their order; its leases; its clock; why it
/// was closed, if it was; and how many frames were taken.
#[derive(Drop)]
pub(crate) struct KeptTable {
    pub requests: Rows<EndKind>,
    pub handed: Vec<HandedIn>,
    pub leases: Leases,
    pub clock: u64,
    pub closed: Option<Reason>,
    pub frames: u64,
}

impl KeptTable {
    ghost use Rattle.conn_core.specs.KeptSteps.{ask_answer, asked_kept, cancel_answer, cancelled_kept, closed_kept, kept_count, release_answer, released_kept, ticked_kept};
    ghost use Rattle.conn_core.specs.Steps.{is_nothing};

    /// Grants a lease, or lets its actor wait for one.
    pub fn ask(&mut self, actor: u32, now: u64) -> Result<LeaseAnswer, AskRefusal>
        requires { self.old.leases.drawn < 2 ^ 64 - 1 }
        ensures answer { result ≡ ask_answer self.old.closed self.old.leases }
        ensures table { OnOk result (self.new ≡ asked_kept actor now self.old) }
        ensures unchanged { OnErr result (self.new ≡ self.old) }
        ensures lawful { OnOk result (IsLeaseTable self.new.leases) }
    {
        if let Some(reason) = self.closed {
            return Err(AskRefusal::Closed(reason));
        }
        let moment = self.clock.max(now);
        match self.leases.ask(actor, moment) {
            Err(QueueFull) => Err(AskRefusal::QueueFull),
            Ok(answer) => {
                self.clock = moment;
                Ok(answer)
            }
        }
    }

    /// Takes a lease away from the actor that holds or waits for it, with its live requests, and grants waiters.
    pub fn release(&mut self, actor: u32, lease: u64, now: u64) -> Result<(), LeaseRefusal>
        ensures answer { result ≡ release_answer actor lease self.old.closed self.old.leases }
        ensures table { OnOk result (self.new ≡ released_kept lease now self.old) }
        ensures known { OnOk result (IsTrue (is_known self.old.leases lease)) }
        ensures unchanged { OnErr result (self.new ≡ self.old) }
        ensures rows { OnOk result (IsRowTable self.new.requests) }
        ensures lawful { OnOk result (IsLeaseTable self.new.leases) }
    {
        if let Some(reason) = self.closed {
            return Err(LeaseRefusal::Closed(reason));
        }
        if self.leases.state(actor, lease).is_none() {
            return Err(LeaseRefusal::NoLease);
        }
        self.clock = self.clock.max(now);
        lose_lease(&mut self.requests, lease);
        self.leases.drop_lease(lease);
        grant_waiters(&mut self.leases, self.clock);
        Ok(())
    }

    /// Ends a live request of the actor, without a reply.
    pub fn cancel(&mut self, actor: u32, id: u64) -> Result<(), CancelRefusal>
        ensures answer { result ≡ cancel_answer (phase_of actor id self.old.requests) }
        ensures table { OnOk result (self.new ≡ cancelled_kept id self.old) }
        ensures live { OnOk result (IsTrue (has_live id self.old.requests)) }
        ensures unchanged { OnErr result (self.new ≡ self.old) }
        ensures rows { IsRowTable self.new.requests }
    {
        let phase = self
            .requests
            .phase(actor, id)
            .ok_or(CancelRefusal::NoRequest)?;
        if let Phase::Ended(kind) = phase {
            return Err(CancelRefusal::AlreadyEnded(kind));
        }
        self.requests.end(id, false, EndKind::Cancelled);
        Ok(())
    }

    /// Ends what is due at a moment, and grants waiters. Where nothing is due nothing changes.
    pub fn tick(&mut self, now: u64) -> Ticked
        requires rows { IsRowTable self.old.requests }
        requires lawful { IsLeaseTable self.old.leases }
        ensures count { result ≡ kept_count now self.old }
        ensures table { self.new ≡ (if is_nothing result then self.old else ticked_kept now self.old) }
        ensures kept_rows { IsRowTable self.new.requests }
        ensures kept_lawful { IsLeaseTable self.new.leases }
    {
        let expired = expire(&mut self.requests, now);
        let (lost, leases) = drop_held(&mut self.requests, &mut self.leases, now);
        let waiters = drop_waiting(&mut self.leases, now);
        let rows = expired + lost;
        if rows != 0 || leases != 0 || waiters != 0 {
            self.clock = self.clock.max(now);
            grant_waiters(&mut self.leases, self.clock);
        }
        Ticked {
            rows,
            leases,
            waiters,
        }
    }

    /// Ends every live request, and drops all leases and waiters.
    pub fn close(&mut self, reason: Reason)
        ensures table { self.new ≡ closed_kept reason self.old }
        ensures rows { IsRowTable self.new.requests }
        ensures lawful { IsLeaseTable self.new.leases }
    {
        lose_all(&mut self.requests, reason);
        self.leases.clear();
        self.closed = Some(reason);
    }
}
