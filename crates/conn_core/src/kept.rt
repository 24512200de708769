ghost use Rattle.std.specs.Prelude.{◌≡◌, ◌+◌, ◌<◌, ◌≤◌, ◌++◌, ℕ, false, Ok, Err, [], length, vec_len, IfErr, IfOk, IsTrue, OnErr, OnOk};
ghost use Rattle.std.specs.Vec.{vec_capacity};
ghost use Rattle.txn_core.specs.RowSteps.{answer_of};
ghost use Rattle.wire_frames.specs.declared.ends.Reason.TheVariants as reasons;
ghost use Rattle.conn_core.specs.Journals.{is_worn, table_of, timeout_limit, turn_if, worn_entry};
ghost use Rattle.conn_core.specs.KeptSteps.{poll_answer};
ghost use Rattle.conn_core.specs.Requests.{IsDraftOf, frame_for, place_answer, request_of, submit_event, submitted_entry};
ghost use Rattle.conn_core.specs.Steps.{accepted_of, apply_frame, ask_lease, asked_entry, cancel, close, collect, is_nothing, reference_to_try, release, submit, take_send};
ghost use Rattle.conn_core.specs.Tables.{Connection, IsSettings};
ghost use Rattle.conn_core.specs.declared.entries.Event.TheVariants as events;

use crate::answers::{
    Accepted, AskRefusal, CancelRefusal, FrameAnswer, FrameRefusal, LeaseRefusal, SendRefusal,
    Sending, SubmitRefusal, Ticked,
};
use crate::drafts::{FrameCopies, write_frames};
use crate::entries::{Answer, Entry, Event};
use crate::frames::write_received;
use crate::requests::{NewRequest, take_frames};
use crate::settings::Settings;
use crate::table::KeptTable;
use lease_core::{LeaseAnswer, LeaseState, Leases};
use node_tree::ByteList;
use std::alloc::{AllocError, Global};
use txn_core::{Rows, TakeRefusal};
use wire_frames::{Outcome, Reason, Wire};

/// How many leases may be held, and how many waited for.
const MAX_LEASES: usize = 64;

/// What a connection keeps: its journal, and the table that the journal leads to.
#[derive(Drop)]
pub(crate) struct Kept {
    pub alloc: Global,
    pub journal: Vec<Entry>,
    pub table: KeptTable,
}

fn make_worn(actor: u32) -> Entry
    ensures { result ≡ worn_entry actor }
{
    Entry {
        actor,
        event: Event::Close {
            reason: Reason::Worn,
        },
        answer: Answer::Closed,
    }
}

fn write_asked(answer: LeaseAnswer) -> Answer
    ensures { result ≡ asked_entry answer }
{
    match answer {
        LeaseAnswer::Granted { lease } => Answer::Granted { lease },
        LeaseAnswer::Waiting { lease, place } => Answer::Waiting { lease, place },
    }
}

fn write_submitted(request: NewRequest, accepted: Accepted, frame: ByteList) -> Entry
    ensures { result ≡ submitted_entry (request_of request) accepted frame }
{
    let NewRequest {
        actor,
        lease,
        ask,
        timeout_ms,
        moment,
    } = request;
    Entry {
        actor,
        event: Event::Submit {
            lease,
            ask,
            timeout_ms,
            now: moment,
        },
        answer: Answer::Accepted {
            id: accepted.id,
            reference: accepted.reference,
            frame,
        },
    }
}

/// Whether nothing was due.
fn is_nothing(count: &Ticked) -> bool
    ensures { result ≡ is_nothing count.now }
{
    count.rows == 0 && count.leases == 0 && count.waiters == 0
}

impl Kept {
    ghost use Rattle.conn_core.specs.KeptStates.{Does, DoesOrNoMemory, DoesTick, IsSound, IsState, Prepares, needs_of, wears_kept, worn_kept};

    /// An empty journal and the opening table, with the room to close it.
    pub fn new(alloc: Global, settings: &Settings) -> Result<Kept, AllocError>
        requires { IsSettings settings.now }
        ensures journal { IfOk result (λ kept. kept.journal.items ≡ []) }
        ensures state { IfOk result (λ kept. (c : Connection) → c.settings ≡ settings.now → IsState c kept) }
    {
        let journal = Vec::with_capacity(alloc, 1)?;
        let requests = Rows::new(alloc, settings.references, settings.window)?;
        let leases = Leases::new(alloc, settings.share, settings.lease_ms, settings.wait_ms)?;
        Ok(Kept {
            alloc,
            journal,
            table: KeptTable {
                requests,
                handed: Vec::new(alloc),
                leases,
                clock: 0,
                closed: None,
                frames: 0,
            },
        })
    }

    /// Whether the next entry fills the journal of an open connection.
    fn wears(&self, settings: &Settings) -> bool
        ensures { result ≡ wears_kept settings.now (length self.now.journal.items + 1) self.now.table.closed }
    {
        self.journal.len() + 1 == settings.journal as usize && self.table.closed.is_none()
    }

    /// Writes an entry down, and closes the table where the journal is full by it.
    pub fn write_down(&mut self, settings: &Settings, entry: Entry)
        requires { vec_len self.old.journal + 1 + needs_of self.old.table ≤ vec_capacity self.old.journal }
        ensures journal { self.new.journal.items ≡ self.old.journal.items
            ++ turn_if (wears_kept settings.now (length self.old.journal.items + 1) self.old.table.closed) entry }
        ensures table { self.new.table ≡ worn_kept
            (wears_kept settings.now (length self.old.journal.items + 1) self.old.table.closed) self.old.table }
        ensures capacity { vec_capacity self.old.journal ≤ vec_capacity self.new.journal }
    {
        let actor = entry.actor;
        let full = self.wears(settings);
        self.journal.push_reserved(entry);
        if full {
            self.table.close(Reason::Worn);
            self.journal.push_reserved(make_worn(actor));
        }
    }

    /// Takes room in the journal for one more event that takes its own, and all that can follow from it.
    fn reserve(&mut self) -> Result<(), AllocError>
        requires { IsSound self.old }
        ensures journal { self.new.journal.items ≡ self.old.journal.items }
        ensures table { self.new.table ≡ self.old.table }
        ensures capacity { vec_capacity self.old.journal ≤ vec_capacity self.new.journal }
        ensures room { OnOk result (length self.new.journal.items + needs_of self.new.table + 5 ≤ vec_capacity self.new.journal) }
    {
        let rows = self.table.handed.len();
        self.journal.reserve(3 * rows + 2 * MAX_LEASES + 6)
    }

    pub fn ask_lease(
        &mut self,
        settings: &Settings,
        actor: u32,
        now: u64,
    ) -> Result<LeaseAnswer, AskRefusal>
        requires { IsSound self.old }
        ensures { (c : Connection) → c.settings ≡ settings.now → IsState c self.old
            → DoesOrNoMemory AskRefusal.NoMemory c actor (events.AskLease now)
            (answer_of (ask_lease (table_of c self.old.journal.items) actor now)) self.old self.new result }
    {
        self.reserve()?;
        let answer = self.table.ask(actor, now)?;
        let entry = Entry {
            actor,
            event: Event::AskLease { now },
            answer: write_asked(answer),
        };
        self.write_down(settings, entry);
        Ok(answer)
    }

    /// What a lease is to an actor.
    pub fn poll_lease(&self, actor: u32, lease: u64) -> Result<LeaseState, LeaseRefusal>
        ensures { result ≡ poll_answer actor lease self.now.table.closed self.now.table.leases }
    {
        if let Some(reason) = self.table.closed {
            return Err(LeaseRefusal::Closed(reason));
        }
        self.table
            .leases
            .state(actor, lease)
            .ok_or(LeaseRefusal::NoLease)
    }

    pub fn release(
        &mut self,
        settings: &Settings,
        actor: u32,
        lease: u64,
        now: u64,
    ) -> Result<(), LeaseRefusal>
        requires { IsSound self.old }
        ensures { (c : Connection) → c.settings ≡ settings.now → IsState c self.old
            → Does c actor (events.Release lease now)
            (answer_of (release (table_of c self.old.journal.items) actor lease now)) self.old self.new result }
    {
        self.table.release(actor, lease, now)?;
        let entry = Entry {
            actor,
            event: Event::Release { lease, now },
            answer: Answer::Released,
        };
        self.write_down(settings, entry);
        Ok(())
    }

    /// Takes room for a request, and the frames that carry it, where it may be handed in.
    fn prepare<W: Wire>(
        &mut self,
        wire: &W,
        request: &NewRequest,
    ) -> Result<FrameCopies, SubmitRefusal>
        requires sound { IsSound self.old }
        requires admitted { IsTrue ((W.meaning wire.now).admits request.now.ask) }
        ensures journal { self.new.journal.items ≡ self.old.journal.items }
        ensures table { self.new.table ≡ record self.old.table { handed = self.new.table.handed } }
        ensures handed { self.new.table.handed.items ≡ self.old.table.handed.items }
        ensures capacity { vec_capacity self.old.journal ≤ vec_capacity self.new.journal }
        ensures room { OnOk result (length self.new.journal.items + needs_of self.new.table + 5 ≤ vec_capacity self.new.journal) }
        ensures handed_room { OnOk result (vec_len self.new.table.handed < vec_capacity self.new.table.handed) }
        ensures prepared { Prepares (W.meaning wire.now) self.old.table (request_of request.now) result }
        ensures sent { IfOk result (λ frames. frames.sent ≡ frames.written) }
    {
        self.reserve()?;
        self.table.reserve()?;
        let reference = self.table.peek_reference();
        let draft = write_frames(self.alloc, wire, &request.ask, reference)?;
        self.table.check_place(request.actor, request.lease)?;
        take_frames(wire, &request.ask, draft)
    }

    pub fn submit<W: Wire>(
        &mut self,
        wire: &W,
        settings: &Settings,
        request: NewRequest,
    ) -> Result<Accepted, SubmitRefusal>
        requires sound { IsSound self.old }
        requires admitted { IsTrue ((W.meaning wire.now).admits request.ask) }
        requires timeout { (1 ≤ request.timeout_ms) × (request.timeout_ms ≤ timeout_limit) }
        ensures { let c : Connection = record { wire = W.meaning wire.now; settings = settings.now } in
            IsState c self.old
            → DoesOrNoMemory SubmitRefusal.NoMemory c request.actor (submit_event (request_of request))
            (accepted_of (answer_of (submit c.wire (table_of c self.old.journal.items) (request_of request)))) self.old self.new result }
    {
        let FrameCopies { written, sent } = self.prepare(wire, &request)?;
        let place = self.journal.len();
        let accepted = self.table.start(self.alloc, &request, place, sent)?;
        self.write_down(settings, write_submitted(request, accepted, written));
        Ok(accepted)
    }

    pub fn take_send(&mut self, settings: &Settings, actor: u32) -> Result<Sending, SendRefusal>
        requires { (c : Connection) × (c.settings ≡ settings.now) × IsState c self.old }
        ensures { (c : Connection) → c.settings ≡ settings.now → IsState c self.old
            → Does c actor events.TakeSend
            (answer_of (take_send (table_of c self.old.journal.items))) self.old self.new result }
    {
        let sending = self.table.send()?;
        let entry = Entry {
            actor,
            event: Event::TakeSend,
            answer: Answer::Sent { id: sending.id },
        };
        self.write_down(settings, entry);
        Ok(sending)
    }

    pub fn collect(
        &mut self,
        settings: &Settings,
        actor: u32,
        id: u64,
    ) -> Result<Outcome, TakeRefusal>
        requires { (c : Connection) × (c.settings ≡ settings.now) × IsState c self.old }
        ensures { (c : Connection) → c.settings ≡ settings.now → IsState c self.old
            → Does c actor (events.Collect id)
            (answer_of (collect (table_of c self.old.journal.items) actor id)) self.old self.new result }
    {
        let outcome = self.table.collect(actor, id)?;
        let entry = Entry {
            actor,
            event: Event::Collect { id },
            answer: Answer::Collected { kind: outcome.kind },
        };
        self.write_down(settings, entry);
        Ok(outcome)
    }

    pub fn apply_frame<W: Wire>(
        &mut self,
        wire: &W,
        settings: &Settings,
        actor: u32,
        frame: ByteList,
    ) -> Result<FrameAnswer, FrameRefusal>
        requires { let c : Connection = record { wire = W.meaning wire.now; settings = settings.now } in IsState c self.old }
        ensures { let c : Connection = record { wire = W.meaning wire.now; settings = settings.now } in
            IsState c self.old
            → DoesOrNoMemory FrameRefusal.NoMemory c actor (events.Frame frame)
            (answer_of (apply_frame c.wire (table_of c self.old.journal.items) frame)) self.old self.new result }
    {
        self.reserve()?;
        let answer = self.table.receive(
            self.alloc,
            wire,
            self.journal.as_slice(),
            frame.as_slice(),
        )?;
        let entry = Entry {
            actor,
            event: Event::Frame { bytes: frame },
            answer: write_received(answer),
        };
        self.write_down(settings, entry);
        Ok(answer)
    }

    pub fn cancel(&mut self, settings: &Settings, actor: u32, id: u64) -> Result<(), CancelRefusal>
        requires { IsSound self.old }
        ensures { (c : Connection) → c.settings ≡ settings.now → IsState c self.old
            → Does c actor (events.Cancel id)
            (answer_of (cancel (table_of c self.old.journal.items) actor id)) self.old self.new result }
    {
        self.table.cancel(actor, id)?;
        let entry = Entry {
            actor,
            event: Event::Cancel { id },
            answer: Answer::Cancelled,
        };
        self.write_down(settings, entry);
        Ok(())
    }

    pub fn tick(&mut self, settings: &Settings, actor: u32, now: u64) -> Ticked
        requires { IsSound self.old }
        ensures { (c : Connection) → c.settings ≡ settings.now → IsState c self.old
            → DoesTick c actor now self.old self.new result }
    {
        let count = self.table.tick(now);
        if is_nothing(&count) {
            return count;
        }
        let Ticked {
            rows,
            leases,
            waiters,
        } = count;
        let entry = Entry {
            actor,
            event: Event::Tick { now },
            answer: Answer::Ticked {
                rows,
                leases,
                waiters,
            },
        };
        self.write_down(settings, entry);
        count
    }

    pub fn close(&mut self, settings: &Settings, actor: u32, reason: Reason) -> Result<(), Reason>
        requires sound { IsSound self.old }
        requires not_worn { is_worn (events.Close reason) ≡ false }
        ensures { (c : Connection) → c.settings ≡ settings.now → IsState c self.old
            → Does c actor (events.Close reason)
            (answer_of (close (table_of c self.old.journal.items) reason)) self.old self.new result }
    {
        if let Some(stands) = self.table.closed {
            return Err(stands);
        }
        self.table.close(reason);
        let entry = Entry {
            actor,
            event: Event::Close { reason },
            answer: Answer::Closed,
        };
        self.write_down(settings, entry);
        Ok(())
    }

    pub fn shutdown(&mut self, settings: &Settings, actor: u32) -> Result<(), Reason>
        requires { IsSound self.old }
        ensures { (c : Connection) → c.settings ≡ settings.now → IsState c self.old
            → Does c actor events.Shutdown
            (answer_of (close (table_of c self.old.journal.items) reasons.Asked)) self.old self.new result }
    {
        if let Some(stands) = self.table.closed {
            return Err(stands);
        }
        self.table.close(Reason::Asked);
        let entry = Entry {
            actor,
            event: Event::Shutdown,
            answer: Answer::Closed,
        };
        self.write_down(settings, entry);
        Ok(())
    }
}
