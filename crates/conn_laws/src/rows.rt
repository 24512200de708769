ghost use Rattle.std.specs.Prelude.{◌≡◌, ◌<◌, ◌≤◌, ◌⊎◌, ◌↔◌, ℕ, List, take};
ghost use Rattle.conn_core.specs.Journals.{Legal, table_of};
ghost use Rattle.conn_core.specs.Places.{Stands, Submitted};
ghost use Rattle.conn_core.specs.Tables.{Connection};
ghost use Rattle.conn_core.specs.declared.entries.Answer.{Answer};
ghost use Rattle.conn_core.specs.declared.entries.Entry.{Entry};
ghost use Rattle.conn_core.specs.declared.entries.Event.TheVariants as events;
ghost use Rattle.conn_laws.specs.RowsKept.{CollectedAt, HasRow, WasCollected};

/// In a legal journal each accepted request has a row in the table until it is collected, and none from then on, and no other id
/// has one. So it is after each number of entries: there is a row exactly where the request was accepted and wasn't collected yet.
///
/// Each Collect of the journal collects a request that was accepted before. An id is accepted once, and collected once at most.
pub fn rows_until_collected()
    ensures kept { (c : Connection) (journal : List Entry) (id : ℕ)
        → Legal c journal → Submitted journal id → HasRow (table_of c journal) id ⊎ WasCollected journal id }
    ensures gone { (c : Connection) (journal : List Entry) (id : ℕ)
        → Legal c journal → WasCollected journal id → ¬ HasRow (table_of c journal) id }
    ensures only { (c : Connection) (journal : List Entry) (id : ℕ)
        → Legal c journal → HasRow (table_of c journal) id → Submitted journal id }
    ensures throughout { (c : Connection) (journal : List Entry) (id k : ℕ) (request : Submitted journal id) → Legal c journal
        → HasRow (table_of c (take k journal)) id
        ↔ ((request.place < k) × ((j : ℕ) → CollectedAt journal id j → k ≤ j)) }
    ensures collects { (c : Connection) (journal : List Entry) (id k actor : ℕ) (answer : Answer)
        → Legal c journal → Stands journal k actor (events.Collect id) answer → CollectedAt journal id k }
    ensures collected_behind { (c : Connection) (journal : List Entry) (id k : ℕ)
        → Legal c journal → CollectedAt journal id k → (request : Submitted journal id) × (request.place < k) }
    ensures accepted_once { (c : Connection) (journal : List Entry) (id : ℕ) (one other : Submitted journal id)
        → Legal c journal → one.place ≡ other.place }
    ensures collected_once { (c : Connection) (journal : List Entry) (id j k : ℕ)
        → Legal c journal → CollectedAt journal id j → CollectedAt journal id k → j ≡ k }
{}
