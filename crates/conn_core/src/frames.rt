ghost use Rattle.std.specs.Prelude.{◌≡◌, ◌+◌, ◌-◌, ◌<◌, ◌≤◌, ◌^◌, ℕ, None, Ok, Some, IfOk, OnErr, OnOk};
ghost use Rattle.std.specs.List.{slice_get};
ghost use Rattle.txn_core.specs.RowTables.{IsRowTable};
ghost use Rattle.conn_core.specs.Entries.{frame_reason};
ghost use Rattle.conn_core.specs.Journals.{AreAdmitted};
ghost use Rattle.conn_core.specs.KeptTables.{Stands};
ghost use Rattle.conn_core.specs.Requests.{Asks};
ghost use Rattle.conn_core.specs.Steps.{apply_frame, frame_entry};
ghost use Rattle.conn_core.specs.Tables.{Table};
ghost use Rattle.conn_core.specs.declared.entries.Entry.{Entry};
ghost use Rattle.wire_frames.specs.declared.asks.Ask.{Ask};

use crate::answers::{FrameAnswer, FrameRefusal};
use crate::entries::{Answer, Entry, Event};
use crate::handed::{keep_values, submit_place};
use crate::table::KeptTable;
use std::alloc::{AllocError, Global};
use txn_core::Arrival;
use wire_frames::{Ask, FrameWhy, Outcome, Reason, Reply, ReplyFault, Wire};

pub(crate) fn write_received(answer: FrameAnswer) -> Answer
    ensures { result ≡ frame_entry answer }
{
    match answer {
        FrameAnswer::Ended { id, kind } => Answer::Ended { id, kind },
        FrameAnswer::Late { reference } => Answer::Late { reference },
        FrameAnswer::Stray { reference } => Answer::Stray { reference },
        FrameAnswer::Undecodable { index, why } => Answer::Undecodable { index, why },
    }
}

/// The ask of the Submit at a place of the journal.
fn ask_at(journal: &[Entry], place: usize) -> &Ask
    requires { (e : Entry) × (ask : Ask) × (slice_get journal.now place ≡ Some e) × Asks e.event ask }
    ensures { (e : Entry) → slice_get journal.now place ≡ Some e → Asks e.event result.now }
{
    match &journal[place].event {
        Event::Submit { ask, .. } => ask,
        _ => unreachable!(),
    }
}

impl KeptTable {
    ghost use Rattle.conn_core.specs.KeptMoves.{Arrives, KeepsOn, MovesOrNoMemory};
    ghost use Rattle.conn_core.specs.KeptStates.{IsKept, needs_of};
    ghost use Rattle.conn_core.specs.KeptSteps.{undecodable_kept};
    ghost use Rattle.conn_core.specs.declared.settings.Settings.{Settings};

    /// What a frame that was read does: it ends the request that was sent under its reference; or it frees a reference that is
    /// in quarantine; or nothing.
    fn arrive<W: Wire>(
        &mut self,
        alloc: Global,
        wire: &W,
        journal: &[Entry],
        reply: &Reply<'_>,
    ) -> Result<FrameAnswer, AllocError>
        requires standing { (t : Table) × Stands journal.now self.old t }
        requires table { IsRowTable self.old.requests }
        requires admitted { AreAdmitted (W.meaning wire.now) journal.now }
        requires read { (W.meaning wire.now).reading_of reply.now.frame.now ≡ Ok reply.now.reading }
        ensures moved { (t : Table) → Stands journal.now self.old t → IfOk result
            (Arrives (W.meaning wire.now) journal.now self.new t reply.now.reference reply.now.reading) }
        ensures unchanged { OnErr result (self.new ≡ self.old) }
        ensures closed { self.new.closed ≡ self.old.closed }
        ensures frames { self.new.frames ≡ self.old.frames }
        ensures stays_open { IfOk result (λ answer. frame_reason (frame_entry answer) ≡ None) }
        ensures kept { OnOk result ((s : Settings) (entries : ℕ) → IsKept s entries self.old → IsKept s entries self.new) }
        ensures needs { OnOk result (needs_of self.new ≤ needs_of self.old) }
    {
        let reference = reply.reference;
        match self.requests.arrival(reference) {
            Arrival::Stray => Ok(FrameAnswer::Stray { reference }),
            Arrival::Late => {
                self.requests.settle(reference);
                Ok(FrameAnswer::Late { reference })
            }
            Arrival::Row(id) => {
                let place = submit_place(&self.handed, id);
                let Outcome { kind, values } = wire.fit(alloc, ask_at(journal, place), reply)?;
                self.requests.end(id, true, kind);
                keep_values(&mut self.handed, id, values);
                Ok(FrameAnswer::Ended { id, kind })
            }
        }
    }

    /// Closes the table by a frame that can't be read.
    fn refuse(&mut self, why: FrameWhy) -> FrameAnswer
        requires { self.old.frames < 2 ^ 64 - 1 }
        ensures answer { result ≡ FrameAnswer.Undecodable self.old.frames why }
        ensures table { self.new ≡ undecodable_kept why self.old }
    {
        let index = self.frames;
        self.frames += 1;
        self.close(Reason::Undecodable { index, why });
        FrameAnswer::Undecodable { index, why }
    }

    /// Takes a frame. Want of memory changes nothing.
    pub fn receive<W: Wire>(
        &mut self,
        alloc: Global,
        wire: &W,
        journal: &[Entry],
        bytes: &[u8],
    ) -> Result<FrameAnswer, FrameRefusal>
        requires standing { (t : Table) × Stands journal.now self.old t }
        requires table { IsRowTable self.old.requests }
        requires admitted { AreAdmitted (W.meaning wire.now) journal.now }
        requires frames { self.old.frames < 2 ^ 64 - 1 }
        ensures moved { (t : Table) → Stands journal.now self.old t
            → MovesOrNoMemory FrameRefusal.NoMemory journal.now self.new t (apply_frame (W.meaning wire.now) t bytes.now) result }
        ensures unchanged { OnErr result (self.new ≡ self.old) }
        ensures unclosed { OnOk result (self.old.closed ≡ None) }
        ensures closed { IfOk result (λ answer. self.new.closed ≡ frame_reason (frame_entry answer)) }
        ensures kept { OnOk result (KeepsOn self.old self.new) }
        ensures needs { OnOk result (needs_of self.new ≤ needs_of self.old) }
    {
        if let Some(reason) = self.closed {
            return Err(FrameRefusal::Closed(reason));
        }
        match wire.reply(alloc, bytes) {
            Ok(reply) => {
                let answer = self.arrive(alloc, wire, journal, &reply)?;
                self.frames += 1;
                Ok(answer)
            }
            Err(fault) => match fault {
                ReplyFault::Undecodable(why) => Ok(self.refuse(why)),
                ReplyFault::NoMemory => Err(FrameRefusal::NoMemory),
            },
        }
    }
}
