ghost use Rattle.std.specs.Prelude.{◌≡◌, ◌≤◌, false, [], IfOk, IfSome, IsNone, IsTrue};
ghost use Rattle.conn_core.specs.Calls.{AppliesFrame, AsksLease, Cancels, Closes, Collects, IsJournalOf, PollsLease, ReleasesLease, ShutsDown, Submits, TakesSend, Ticks};
ghost use Rattle.conn_core.specs.Causes.{ClosesWith, NoneCloses};
ghost use Rattle.conn_core.specs.Journals.{is_worn, timeout_limit};
ghost use Rattle.conn_core.specs.States.{State, table_in};
ghost use Rattle.conn_core.specs.Tables.{IsSettings};
ghost use Rattle.conn_core.specs.declared.entries.Event.TheVariants as events;

use crate::answers::{
    Accepted, AskRefusal, CancelRefusal, FrameAnswer, FrameRefusal, LeaseRefusal, SendRefusal,
    Sending, SubmitRefusal, Ticked,
};
use crate::entries::{Entry, EntryList};
use crate::kept::Kept;
use crate::requests::NewRequest;
use crate::settings::{Key, Settings};
use lease_core::{LeaseAnswer, LeaseState};
use node_tree::{ByteList, OwnedList};
use std::alloc::{AllocError, Global};
use std::marker::Model;
use txn_core::TakeRefusal;
use wire_frames::{Ask, Outcome, Reason, Wire};

/// The state of one connection: its wire, its settings, and the table of requests with the journal that leads to it. Contracts
/// see its key and its journal.
#[derive(Drop)]
pub struct ConnState<W: Wire> {
    key: Key<W>,
    kept: Kept,
}

impl<W: Wire> Model for ConnState<W> {
    ghost use Rattle.conn_core.specs.KeptStates.{IsState};
    ghost use Rattle.conn_core.specs.States.{State, connection_of};

    ghost Value = { State W };

    ghost view = { λ a. record { key = a.key; journal = a.kept.journal.items } };

    ghost invariant = { λ a. IsState (connection_of W.meaning a.key) a.kept };
}

impl<W: Wire> ConnState<W> {
    /// An open connection to which nothing has happened. The settings must lie in their ranges, as `Settings::are_in_range` tells.
    /// An `Err` is want of memory: the room for all references, rows and leases and for the close is taken here.
    pub fn new(alloc: Global, wire: W, settings: Settings) -> Result<ConnState<W>, AllocError>
        requires { IsSettings settings }
        ensures key { IfOk result (λ state. state.key ≡ record { wire = wire; settings = settings }) }
        ensures journal { IfOk result (λ state. state.journal ≡ []) }
    {
        let kept = Kept::new(alloc, &settings)?;
        let key = Key { wire, settings };
        Ok(ConnState { key, kept })
    }

    /// Asks for a lease, at a moment in milliseconds. It is held at once, where fewer than the settings' `share` are and none is
    /// waited for, and else waited for.
    ///
    /// Refused, in this order: `NoMemory`; `Closed`, with the reason that stands in the journal; `QueueFull`, where 64 wait.
    pub fn ask_lease(&mut self, actor: u32, now: u64) -> Result<LeaseAnswer, AskRefusal>
        ensures { AsksLease W.meaning actor now self.old self.new result }
    {
        self.kept.ask_lease(&self.key.settings, actor, now)
    }

    /// What a lease is to an actor: held, or waited for with so many waiters before.
    ///
    /// Refused, in this order: `Closed`; `NoLease`, where the actor neither holds nor waits for one with this number.
    pub fn poll_lease(&self, actor: u32, lease: u64) -> Result<LeaseState, LeaseRefusal>
        ensures { PollsLease W.meaning actor lease self.now result }
    {
        self.kept.poll_lease(actor, lease)
    }

    /// Gives back a lease that the actor holds or waits for. Its live requests end, and waiters are granted while there is room.
    /// The moment is in milliseconds. It never fails for memory.
    ///
    /// Refused, in this order: `Closed`; `NoLease`, where the actor neither holds nor waits for one with this number.
    pub fn release(&mut self, actor: u32, lease: u64, now: u64) -> Result<(), LeaseRefusal>
        ensures { ReleasesLease W.meaning actor lease now self.old self.new result }
    {
        self.kept.release(&self.key.settings, actor, lease, now)
    }

    /// Hands in a request, which is queued under the first free reference. Its time, from 1 to 3,600,000, and the moment are in
    /// milliseconds. The wire must admit the ask, as `admits` tells.
    ///
    /// Refused, in this order: `NoMemory`; `Closed`; `NoLease`, where the actor doesn't hold the lease; `TableFull`, where 1,024
    /// rows are kept; `Unwritable`, where the wire has no frame for the ask under the first free reference, or 1 where none is;
    /// `TooLarge`, where its size passes the wire's limit; `NoReference`, where no reference is free.
    pub fn submit(
        &mut self,
        actor: u32,
        lease: u64,
        ask: Ask,
        timeout_ms: u32,
        now: u64,
    ) -> Result<Accepted, SubmitRefusal>
        requires admitted { IsTrue ((W.meaning self.old.key.wire).admits ask) }
        requires timeout { (1 ≤ timeout_ms) × (timeout_ms ≤ timeout_limit) }
        ensures { Submits W.meaning (record { actor = actor; lease = lease; ask = ask; timeout = timeout_ms; moment = now }) self.old self.new result }
    {
        let request = NewRequest {
            actor,
            lease,
            ask,
            timeout_ms,
            moment: now,
        };
        self.kept
            .submit(&self.key.wire, &self.key.settings, request)
    }

    /// Hands out the next frame to write, of the queued request with the least id. It never fails for memory.
    ///
    /// Refused, in this order: `Closed`; `Nothing`, where no request is queued or as many as the settings' `window` are sent and
    /// live.
    pub fn take_send(&mut self, actor: u32) -> Result<Sending, SendRefusal>
        ensures { TakesSend W.meaning actor self.old self.new result }
    {
        self.kept.take_send(&self.key.settings, actor)
    }

    /// Takes a frame that came. Unless it is refused its bytes stand in the journal from then on.
    ///
    /// Refused, in this order: `NoMemory`; `Closed`. A frame that can't be read closes the connection.
    pub fn apply_frame(&mut self, actor: u32, frame: ByteList) -> Result<FrameAnswer, FrameRefusal>
        ensures { AppliesFrame W.meaning actor frame self.old self.new result }
    {
        self.kept
            .apply_frame(&self.key.wire, &self.key.settings, actor, frame)
    }

    /// Ends a live request of the actor, unanswered; on a closed connection none is live. It never fails for memory.
    ///
    /// Refused: `NoRequest`, where the actor has no such row; `AlreadyEnded`, with how the request ended.
    pub fn cancel(&mut self, actor: u32, id: u64) -> Result<(), CancelRefusal>
        ensures { Cancels W.meaning actor id self.old self.new result }
    {
        self.kept.cancel(&self.key.settings, actor, id)
    }

    /// Hands out how a request of the actor ended, and forgets it. It never fails for memory.
    ///
    /// Refused: `NoRequest`, where the actor has no such row; `Pending`, where the request is live.
    pub fn collect(&mut self, actor: u32, id: u64) -> Result<Outcome, TakeRefusal>
        ensures { Collects W.meaning actor id self.old self.new result }
    {
        self.kept.collect(&self.key.settings, actor, id)
    }

    /// Ends what is due at a moment in milliseconds: first requests by their own time, then held leases with their live requests,
    /// then waiters; then waiters are granted while there is room. Where nothing is due nothing changes. It never fails for memory.
    pub fn tick(&mut self, actor: u32, now: u64) -> Ticked
        ensures { Ticks W.meaning actor now self.old self.new result }
    {
        self.kept.tick(&self.key.settings, actor, now)
    }

    /// Closes the connection: every live request is lost, and leases and waiters are dropped. The reason isn't `Worn`, which only a
    /// full journal brings. It never fails for memory.
    ///
    /// Refused where the connection is closed, with the reason that stands.
    pub fn close(&mut self, actor: u32, reason: Reason) -> Result<(), Reason>
        requires { is_worn (events.Close reason) ≡ false }
        ensures { Closes W.meaning actor reason self.old self.new result }
    {
        self.kept.close(&self.key.settings, actor, reason)
    }

    /// Closes the connection because it was asked to, as `close` does.
    pub fn shutdown(&mut self, actor: u32) -> Result<(), Reason>
        ensures { ShutsDown W.meaning actor self.old self.new result }
    {
        self.kept.shutdown(&self.key.settings, actor)
    }

    /// Why the connection closed, if it did.
    pub fn closed(&self) -> Option<Reason>
        ensures why { result ≡ (table_in W.meaning self.now).closed }
        ensures cause { IfSome result (λ reason. ClosesWith self.now.journal reason) }
        ensures unclosed { IsNone result → NoneCloses self.now.journal }
    {
        self.kept.table.closed
    }

    /// Whether the connection's wire carries an ask at all.
    pub fn admits(&self, ask: &Ask) -> bool
        ensures { result ≡ (W.meaning self.now.key.wire).admits ask.now }
    {
        self.key.wire.admits(ask)
    }

    /// All that happened, in order: below its limit while nothing has closed the connection, and at most 1,025 entries past it.
    pub fn journal(&self) -> &[Entry]
        ensures journal { result.now ≡ self.now.journal }
        ensures law { IsJournalOf W.meaning self.now }
    {
        self.kept.journal.as_slice()
    }

    /// The journal by itself.
    pub fn into_journal(self) -> EntryList
        ensures journal { result ≡ self.journal }
        ensures law { IsJournalOf W.meaning self }
    {
        let ConnState { kept, .. } = self;
        let Kept { journal, .. } = kept;
        OwnedList::from_vec(journal)
    }
}
