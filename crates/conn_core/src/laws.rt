ghost use Rattle.std.specs.Prelude.{◌≡◌, ◌+◌, ◌++◌, ℕ, List, None, Some, IfOk, length};
ghost use Rattle.txn_core.specs.RowSteps.{answer_of};
ghost use Rattle.conn_core.specs.Entries.{closing_reason};
ghost use Rattle.conn_core.specs.EntryLaw.{EntryLaw};
ghost use Rattle.conn_core.specs.HandedOut.{IsCollected, IsSending};
ghost use Rattle.conn_core.specs.Journals.{Legal, after_turn, table_of, turn_of};
ghost use Rattle.conn_core.specs.RequestLaw.{RequestLaw};
ghost use Rattle.conn_core.specs.Steps.{collect, step, take_send};
ghost use Rattle.conn_core.specs.TableLaw.{TableLaw};
ghost use Rattle.conn_core.specs.Tables.{Connection, IsSettings, Table};
ghost use Rattle.conn_core.specs.declared.entries.Entry.{Entry};

/// The table after a legal journal has the clock, the leases, the close and the counts that the journal's places tell, by the
/// settings of its connection. It keeps no more rows, waiters and held leases than it may, and no more rows are sent and live than
/// the window has.
pub fn table_by_places()
    ensures { (c : Connection) (journal : List Entry) → Legal c journal → TableLaw c journal }
{}

/// Each entry of a legal journal is a step on the table of the entries before it. So numbers are drawn in order, a request is
/// handed in under a lease that its actor holds, and a frame is answered as its reading says.
pub fn entries_by_places()
    ensures { (c : Connection) (journal : List Entry) → Legal c journal → EntryLaw c journal }
{}

/// What entries of a legal journal say of requests: what is sent or collected is what the journal says of the actor's request, and a
/// frame ends a request only after its sending, with its reference and as its reading fits. The settings lie in their ranges.
pub fn requests_by_places()
    ensures { (c : Connection) (journal : List Entry) → IsSettings c.settings → Legal c journal → RequestLaw c journal }
{}

/// What a legal journal's table hands out is what the journal says: a sending is a request that it accepted, in the frame of its
/// ask, and an outcome is that of the actor's request, by a reply that came after its sending, or by what stands behind its
/// acceptance and ends it without one. The settings lie in their ranges.
pub fn handed_out_by_places()
    ensures sent { (c : Connection) (journal : List Entry) → IsSettings c.settings → Legal c journal
        → IfOk (answer_of (take_send (table_of c journal))) (IsSending c journal) }
    ensures collected { (c : Connection) (journal : List Entry) (actor id : ℕ) → IsSettings c.settings → Legal c journal
        → IfOk (answer_of (collect (table_of c journal) actor id)) (IsCollected c journal actor id) }
{}

/// The table after a journal that goes on by one turn is the one that the turn's event gives, closed where the turn fills
/// the journal.
pub fn table_by_turns()
    ensures { (c : Connection) (journal : List Entry) (e : Entry) (t : Table)
        → step c (table_of c journal) e.actor e.event ≡ Some (t, e.answer)
        → table_of c (journal ++ turn_of c.settings (length journal + 1) t e)
        ≡ after_turn c.settings (length journal + 1) t }
{}

/// An event that isn't refused leaves the table as open or closed as it was, unless its entry closes.
pub fn open_by_steps()
    ensures { (c : Connection) (t : Table) (e : Entry) (u : Table)
        → step c t e.actor e.event ≡ Some (u, e.answer) → closing_reason e ≡ None → u.closed ≡ t.closed }
{}
