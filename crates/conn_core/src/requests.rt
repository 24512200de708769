ghost use Rattle.std.specs.Prelude.{◌≡◌, ◌+◌, ◌-◌, ◌<◌, ◌≤◌, ◌^◌, ℕ, List, Result, None, IfErr, IfOk, IsTrue, OnErr, OnOk, length, vec_len};
ghost use Rattle.std.specs.List.{list_any};
ghost use Rattle.std.specs.Vec.{vec_capacity};
ghost use Rattle.lease_core.specs.LeaseTables.{deadline_of, is_lease_of};
ghost use Rattle.txn_core.specs.RowTables.{IsRowTable};
ghost use Rattle.wire_frames.specs.WireMeaning.{Refused};
ghost use Rattle.conn_core.specs.KeptTables.{Stands};
ghost use Rattle.conn_core.specs.Requests.{IsDraftOf, frame_for, place_answer, request_of};
ghost use Rattle.conn_core.specs.Steps.{add_refusal, collect, reference_to_try, take_send};
ghost use Rattle.conn_core.specs.Tables.{Table};
ghost use Rattle.conn_core.specs.declared.entries.Entry.{Entry};

use crate::answers::{Accepted, SendRefusal, Sending, SubmitRefusal};
use crate::drafts::{Draft, FrameCopies};
use crate::handed::{HandedIn, hand_out, take_values};
use crate::table::KeptTable;
use lease_core::{LeaseState, Leases};
use node_tree::ByteList;
use std::alloc::{AllocError, Global};
use txn_core::{AddRefusal, TakeRefusal};
use wire_frames::{Ask, Outcome, ValueRows, Wire};

/// What a caller hands in.
#[derive(Debug, Drop)]
pub(crate) struct NewRequest {
    pub actor: u32,
    pub lease: u64,
    pub ask: Ask,
    pub timeout_ms: u32,
    pub moment: u64,
}

/// The moment so many milliseconds after another, or the greatest one.
fn find_deadline(now: u64, milliseconds: u32) -> u64
    ensures { result ≡ deadline_of now milliseconds }
{
    now.saturating_add(u64::from(milliseconds))
}

fn refuse_add(refusal: AddRefusal) -> SubmitRefusal
    ensures { result ≡ add_refusal refusal }
{
    match refusal {
        AddRefusal::Full => SubmitRefusal::TableFull,
        AddRefusal::NoReference => SubmitRefusal::NoReference,
        AddRefusal::NoMemory => SubmitRefusal::NoMemory,
    }
}

/// Whether an actor holds a lease.
fn holds(leases: &Leases, actor: u32, lease: u64) -> bool
    ensures { result ≡ list_any (is_lease_of actor lease) leases.now.held }
{
    matches!(leases.state(actor, lease), Some(LeaseState::Held))
}

/// The frames of a request that its caller may hand in, from the draft of its ask.
pub(crate) fn take_frames<W: Wire>(
    wire: &W,
    ask: &Ask,
    draft: Draft,
) -> Result<FrameCopies, SubmitRefusal>
    requires { IsTrue ((W.meaning wire.now).admits ask.now) }
    ensures written { (wanted : Result (List ℕ) Refused) → IsDraftOf wanted draft
        → IfOk result (λ frames. frame_for (W.meaning wire.now) ask.now wanted ≡ Ok frames.written) }
    ensures sent { (wanted : Result (List ℕ) Refused) → IsDraftOf wanted draft
        → IfOk result (λ frames. frames.sent ≡ frames.written) }
    ensures err { (wanted : Result (List ℕ) Refused) → IsDraftOf wanted draft
        → IfErr result (λ refusal. frame_for (W.meaning wire.now) ask.now wanted ≡ Err refusal) }
{
    let frames = match draft {
        Draft::Written(frames) => frames,
        Draft::Unwritable { entry, why } => return Err(SubmitRefusal::Unwritable { entry, why }),
    };
    let size = wire.size(ask);
    let limit = wire.limit();
    if limit < size {
        return Err(SubmitRefusal::TooLarge { size, limit });
    }
    Ok(frames)
}

impl KeptTable {
    ghost use Rattle.conn_core.specs.KeptMoves.{KeepsOn, Moves, Starts};
    ghost use Rattle.conn_core.specs.KeptStates.{needs_of};

    /// Takes room for what is kept of one more request beside its row.
    pub fn reserve(&mut self) -> Result<(), AllocError>
        ensures same { self.new ≡ record self.old { handed = self.new.handed } }
        ensures items { self.new.handed.items ≡ self.old.handed.items }
        ensures room { OnOk result (vec_len self.new.handed < vec_capacity self.new.handed) }
    {
        self.handed.reserve(1)
    }

    /// The reference that the next request goes out under, or 1 where none is free.
    pub fn peek_reference(&self) -> u16
        ensures reference { (t : Table) (journal : List Entry) → Stands journal self.now t → result ≡ reference_to_try t }
        ensures some { 0 < result }
    {
        self.requests.next_reference().unwrap_or(1)
    }

    /// Whether the caller may hand in a request, as the table stands.
    pub fn check_place(&self, actor: u32, lease: u64) -> Result<(), SubmitRefusal>
        ensures { result ≡ place_answer actor lease self.now.closed self.now.leases self.now.requests }
    {
        if let Some(reason) = self.closed {
            return Err(SubmitRefusal::Closed(reason));
        }
        if !holds(&self.leases, actor, lease) {
            return Err(SubmitRefusal::NoLease);
        }
        if self.requests.full() {
            return Err(SubmitRefusal::TableFull);
        }
        Ok(())
    }

    /// Queues a request under the first free reference. Its Submit is to be written down at a place of the journal.
    pub fn start(
        &mut self,
        alloc: Global,
        request: &NewRequest,
        place: usize,
        frame: ByteList,
    ) -> Result<Accepted, SubmitRefusal>
        requires room { vec_len self.old.handed < vec_capacity self.old.handed }
        requires drawn { self.old.requests.drawn < 2 ^ 64 - 1 }
        requires unclosed { self.old.closed ≡ None }
        ensures moved { (journal : List Entry) (t : Table) → place ≡ length journal → Stands journal self.old t
            → Starts journal self.new t (request_of request.now) frame result }
        ensures unchanged { OnErr result (self.new ≡ self.old) }
        ensures closed { self.new.closed ≡ self.old.closed }
        ensures kept { OnOk result (KeepsOn self.old self.new) }
        ensures needs { OnOk result (needs_of self.new ≡ needs_of self.old + 3) }
    {
        let clock = self.clock.max(request.moment);
        let deadline = find_deadline(clock, request.timeout_ms);
        match self.requests.add(request.actor, request.lease, deadline) {
            Err(refusal) => Err(refuse_add(refusal)),
            Ok((id, reference)) => {
                self.clock = clock;
                self.handed.push_reserved(HandedIn {
                    id,
                    place,
                    reference,
                    frame: Some(frame),
                    values: ValueRows::new(alloc),
                });
                Ok(Accepted { id, reference })
            }
        }
    }

    /// Sends the queued request with the least id.
    pub fn send(&mut self) -> Result<Sending, SendRefusal>
        requires standing { (journal : List Entry) × (t : Table) × Stands journal self.old t }
        requires table { IsRowTable self.old.requests }
        ensures moved { (journal : List Entry) (t : Table) → Stands journal self.old t
            → Moves journal self.new t (take_send t) result }
        ensures unchanged { OnErr result (self.new ≡ self.old) }
        ensures closed { self.new.closed ≡ self.old.closed }
        ensures kept { OnOk result (KeepsOn self.old self.new) }
        ensures needs { OnOk result (needs_of self.new + 1 ≤ needs_of self.old) }
    {
        if let Some(reason) = self.closed {
            return Err(SendRefusal::Closed(reason));
        }
        match self.requests.send_next() {
            None => Err(SendRefusal::Nothing),
            Some(id) => Ok(hand_out(&mut self.handed, id)),
        }
    }

    /// Takes an ended request of the actor out, and tells how it ended.
    pub fn collect(&mut self, actor: u32, id: u64) -> Result<Outcome, TakeRefusal>
        requires standing { (journal : List Entry) × (t : Table) × Stands journal self.old t }
        requires table { IsRowTable self.old.requests }
        ensures moved { (journal : List Entry) (t : Table) → Stands journal self.old t
            → Moves journal self.new t (collect t actor id) result }
        ensures unchanged { OnErr result (self.new ≡ self.old) }
        ensures closed { self.new.closed ≡ self.old.closed }
        ensures kept { OnOk result (KeepsOn self.old self.new) }
        ensures needs { OnOk result (needs_of self.new + 1 ≤ needs_of self.old) }
        ensures rows { OnOk result (length self.new.requests.rows + 1 ≡ length self.old.requests.rows) }
    {
        match self.requests.take(actor, id) {
            Err(refusal) => Err(refusal),
            Ok(kind) => {
                let values = take_values(&mut self.handed, id);
                Ok(Outcome { kind, values })
            }
        }
    }
}
