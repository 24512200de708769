ghost use Rattle.std.specs.Prelude.{◌≡◌, ◌+◌, ◌<◌, ◌-◌, ◌^◌, ℕ, [], ◌⊎◌, Err, IfOk, IfSome, IsTrue, OnErr, length};
ghost use Rattle.std.specs.Option.{option_map};
ghost use Rattle.txn_core.specs.RowTables.{IsRowSettings, IsRowTable, any_row, first_where, has_lease, has_live, has_sent, is_due, is_full, is_quarantined, next_reference, opening, phase_live, phase_of, rows_limit};
ghost use Rattle.txn_core.specs.RowSteps.{Draft, IsGivenOrNoMemory, added, after_or, answer_of, arrival_of, ended, sent_next, settled, table_or, taken};

use crate::kept::{
    KeptRow, count_sent, first_due, first_live, first_of, first_sent, place_live, place_of,
    place_queued,
};
use crate::marks::{all_references, is_marked, no_marks};
use crate::phases::{AddRefusal, Arrival, Phase, TakeRefusal};
use std::alloc::{AllocError, Global};
use std::collections::VecDeque;
use std::marker::Model;

/// How many requests are kept at most, ended ones too.
const MAX_ROWS: usize = 1024;

/// The requests of one connection that are kept, at most 1,024, and the references from 1 to so many that tell their replies
/// apart. Contracts see a `RowTable`. Ids count from 1, and rows stand by rising id.
#[derive(Drop)]
pub struct Rows<E: Copy> {
    references: u16,
    window: u8,
    rows: Vec<KeptRow<E>>,
    free: VecDeque<u16>,
    /// by reference: whether it is in quarantine
    quarantined: Vec<bool>,
    drawn: u64,
}

impl<E: Copy> Model for Rows<E> {
    ghost use Rattle.txn_core.specs.RowTables.{RowTable};

    ghost Value = { RowTable (Unit {0}) E };

    ghost use Rattle.txn_core.specs.KeptRows.{IsKept, table_of};

    ghost view = { table_of };

    ghost invariant = { IsKept };
}

impl<E: Copy> Rows<E> {
    /// No requests, with so many references, of which all are free, and a window of so many requests that may be sent and live
    /// at once, from 1 to 64. An `Err` is want of memory: the room for all that follows is taken here.
    pub fn new(alloc: Global, references: u16, window: u8) -> Result<Rows<E>, AllocError>
        requires { IsRowSettings references window }
        ensures opened { IfOk result (λ rows. rows ≡ opening references window) }
        ensures table { IfOk result (λ rows. IsRowTable rows) }
    {
        let rows = Vec::with_capacity(alloc, MAX_ROWS)?;
        let free = all_references(alloc, references)?;
        let quarantined = no_marks(alloc, references)?;
        Ok(Rows {
            references,
            window,
            rows,
            free,
            quarantined,
            drawn: 0,
        })
    }

    /// Whether as many requests are kept as may be, ended ones too.
    pub fn full(&self) -> bool
        ensures answer { result ≡ is_full self.now }
        ensures table { IsRowTable self.now }
    {
        self.rows.len() == MAX_ROWS
    }

    /// The reference under which the next request will go out, if any is free.
    pub fn next_reference(&self) -> Option<u16>
        ensures answer { result ≡ next_reference self.now }
        ensures table { IsRowTable self.now }
    {
        self.free.front().copied()
    }

    /// How many ids were drawn, so the last id.
    pub fn drawn(&self) -> u64
        ensures answer { result ≡ self.now.drawn }
        ensures table { IsRowTable self.now }
    {
        self.drawn
    }

    /// Adds a request, queued under the first free reference, and gives its id and that reference. Its deadline is a moment.
    /// Fewer ids than a `u64` counts must have been drawn.
    ///
    /// Refused, in this order, with nothing changed: `Full`, where 1,024 are kept; `NoReference`, where no reference is free.
    pub fn add(&mut self, owner: u32, lease: u64, deadline: u64) -> Result<(u64, u16), AddRefusal>
        requires { self.old.drawn < 2 ^ 64 - 1 }
        ensures answer { let draft : Draft (Unit {0}) = record { owner = owner; lease = lease; deadline = deadline; what = tt } in
            IsGivenOrNoMemory AddRefusal.NoMemory result (answer_of (added draft self.old)) }
        ensures rows { let draft : Draft (Unit {0}) = record { owner = owner; lease = lease; deadline = deadline; what = tt } in
            (result ≡ Err AddRefusal.NoMemory) ⊎ (self.new ≡ table_or self.old (added draft self.old)) }
        ensures unchanged { OnErr result (self.new ≡ self.old) }
        ensures full { result ≡ Err AddRefusal.Full → length self.old.rows ≡ rows_limit }
        ensures no_reference { result ≡ Err AddRefusal.NoReference → self.old.free ≡ [] }
        ensures table { IsRowTable self.new }
    {
        if self.rows.len() == MAX_ROWS {
            return Err(AddRefusal::Full);
        }
        let reference = self.free.pop_front().ok_or(AddRefusal::NoReference)?;
        let id = self.drawn + 1;
        self.rows
            .push(KeptRow {
                id,
                owner,
                lease,
                reference,
                deadline,
                phase: Phase::Queued,
            })
            .unwrap();
        self.drawn = id;
        Ok((id, reference))
    }

    /// Sends the queued request with the least id, and gives that id. There is none where no request is queued, or as many are
    /// sent and live as the window has.
    pub fn send_next(&mut self) -> Option<u64>
        ensures answer { result ≡ option_map (λ p. p.1.id) (sent_next self.old) }
        ensures rows { self.new ≡ after_or self.old (sent_next self.old) }
        ensures table { IsRowTable self.new }
    {
        if count_sent(&self.rows) >= usize::from(self.window) {
            return None;
        }
        let at = place_queued(&self.rows)?;
        let row = &mut self.rows[at];
        row.phase = Phase::Sent;
        Some(row.id)
    }

    /// What a reply with this reference is for: the request that was sent under it and hasn't ended; or, where the reference is
    /// in quarantine, one that ended before.
    pub fn arrival(&self, reference: u16) -> Arrival
        ensures answer { result ≡ arrival_of reference self.now }
        ensures live { (id : ℕ) → result ≡ Arrival.Row id → IsTrue (has_live id self.now) }
        ensures sent { (id : ℕ) → result ≡ Arrival.Row id → IsTrue (has_sent id self.now) }
        ensures late { result ≡ Arrival.Late → IsTrue (is_quarantined reference self.now) }
        ensures table { IsRowTable self.now }
    {
        if let Some(id) = first_sent(&self.rows, reference) {
            Arrival::Row(id)
        } else if is_marked(&self.quarantined, reference) {
            Arrival::Late
        } else {
            Arrival::Stray
        }
    }

    /// Frees a reference that is in quarantine: its late reply came.
    pub fn settle(&mut self, reference: u16)
        requires { IsTrue (is_quarantined reference self.old) }
        ensures rows { self.new ≡ settled reference self.old }
        ensures table { IsRowTable self.new }
    {
        self.quarantined[usize::from(reference)] = false;
        self.free.push_back(reference).unwrap();
    }

    /// Ends a live request, which must be sent where it is `answered`, by its reply. The reference of one that was sent and isn't
    /// answered goes into quarantine; every other is free again.
    pub fn end(&mut self, id: u64, answered: bool, kind: E)
        requires live { IsTrue (has_live id self.old) }
        requires sent { IsTrue answered → IsTrue (has_sent id self.old) }
        ensures rows { self.new ≡ ended id answered kind self.old }
        ensures table { IsRowTable self.new }
    {
        let at = place_live(&self.rows, id).unwrap();
        let row = &mut self.rows[at];
        let reference = row.reference;
        let stays_out = row.stays_out(answered);
        row.phase = Phase::Ended(kind);
        if stays_out {
            self.quarantined[usize::from(reference)] = true;
        } else {
            self.free.push_back(reference).unwrap();
        }
    }

    /// Where an owner's request stands, if it is kept.
    pub fn phase(&self, owner: u32, id: u64) -> Option<Phase<E>>
        ensures answer { result ≡ phase_of owner id self.now }
        ensures live { IfSome result (λ phase. IsTrue (phase_live phase) → IsTrue (has_live id self.now)) }
        ensures table { IsRowTable self.now }
    {
        let at = place_of(&self.rows, owner, id)?;
        Some(self.rows[at].phase)
    }

    /// The least id of a live request whose deadline is at or before a moment.
    pub fn due(&self, now: u64) -> Option<u64>
        ensures answer { result ≡ first_where (is_due now) self.now }
        ensures live { IfSome result (λ id. IsTrue (has_live id self.now)) }
        ensures table { IsRowTable self.now }
    {
        first_due(&self.rows, now)
    }

    /// The least id of a lease's live request.
    pub fn live_of(&self, lease: u64) -> Option<u64>
        ensures answer { result ≡ first_where (has_lease lease) self.now }
        ensures live { IfSome result (λ id. IsTrue (has_live id self.now)) }
        ensures table { IsRowTable self.now }
    {
        first_of(&self.rows, lease)
    }

    /// The least id of a live request.
    pub fn first_live(&self) -> Option<u64>
        ensures answer { result ≡ first_where any_row self.now }
        ensures live { IfSome result (λ id. IsTrue (has_live id self.now)) }
        ensures table { IsRowTable self.now }
    {
        first_live(&self.rows)
    }

    /// Takes out an owner's request that has ended, and tells how.
    ///
    /// Refused, with nothing changed: `Pending`, where it is live; `NoRequest`, where the owner has no such request.
    pub fn take(&mut self, owner: u32, id: u64) -> Result<E, TakeRefusal>
        ensures answer { result ≡ answer_of (taken owner id self.old) }
        ensures rows { self.new ≡ table_or self.old (taken owner id self.old) }
        ensures table { IsRowTable self.new }
    {
        let at = place_of(&self.rows, owner, id).ok_or(TakeRefusal::NoRequest)?;
        match self.rows[at].phase {
            Phase::Queued | Phase::Sent => Err(TakeRefusal::Pending),
            Phase::Ended(kind) => {
                self.rows.remove(at);
                Ok(kind)
            }
        }
    }
}
