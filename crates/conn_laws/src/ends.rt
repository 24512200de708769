ghost use Rattle.std.specs.Prelude.{◌≡◌, ◌↔◌, ℕ, List, Ok, Err};
ghost use Rattle.txn_core.specs.RowSteps.{answer_of};
ghost use Rattle.txn_core.specs.declared.phases.TakeRefusal.TheVariants as take_refusals;
ghost use Rattle.wire_frames.specs.declared.ends.EndKind.{EndKind};
ghost use Rattle.wire_frames.specs.declared.ends.Outcome.{Outcome};
ghost use Rattle.conn_core.specs.Ends.{IsEndPlace, IsOutcome};
ghost use Rattle.conn_core.specs.HistoryLaw.{IsUnended};
ghost use Rattle.conn_core.specs.Journals.{Legal, table_of};
ghost use Rattle.conn_core.specs.Steps.{cancel, collect};
ghost use Rattle.conn_core.specs.Tables.{Connection, IsSettings};
ghost use Rattle.conn_core.specs.declared.answers.CancelRefusal.TheVariants as cancel_refusals;
ghost use Rattle.conn_core.specs.declared.entries.Entry.{Entry};
ghost use Rattle.conn_laws.specs.KeptRequests.{IsKept};

/// What `cancel` and `collect` answer after a legal journal, by places in it.
///
/// `cancel` answers `AlreadyEnded` with the kind of the end place of the actor's request, exactly where it has one and wasn't
/// collected, and cancels exactly where it has none. `collect` hands out the outcome of the end place, and is pending exactly where
/// there is none. Both answer `NoRequest` exactly where the actor has no such request that wasn't collected.
pub fn ends_by_places()
    ensures already_ended { (c : Connection) (journal : List Entry) (actor id : ℕ) (kind : EndKind) → IsSettings c.settings → Legal c journal
        → (answer_of (cancel (table_of c journal) actor id) ≡ Err (cancel_refusals.AlreadyEnded kind))
        ↔ ((kept : IsKept journal actor id) × (k : ℕ) × IsEndPlace c journal id kept.request k kind) }
    ensures cancels { (c : Connection) (journal : List Entry) (actor id : ℕ) → IsSettings c.settings → Legal c journal
        → (answer_of (cancel (table_of c journal) actor id) ≡ Ok tt)
        ↔ ((kept : IsKept journal actor id) × IsUnended c journal id kept.request) }
    ensures nothing_to_cancel { (c : Connection) (journal : List Entry) (actor id : ℕ) → IsSettings c.settings → Legal c journal
        → (answer_of (cancel (table_of c journal) actor id) ≡ Err cancel_refusals.NoRequest) ↔ ¬ IsKept journal actor id }
    ensures collected { (c : Connection) (journal : List Entry) (actor id : ℕ) (outcome : Outcome) → IsSettings c.settings → Legal c journal
        → (answer_of (collect (table_of c journal) actor id) ≡ Ok outcome)
        ↔ ((kept : IsKept journal actor id) × (k : ℕ) × IsOutcome c journal id kept.request k outcome) }
    ensures pending { (c : Connection) (journal : List Entry) (actor id : ℕ) → IsSettings c.settings → Legal c journal
        → (answer_of (collect (table_of c journal) actor id) ≡ Err take_refusals.Pending)
        ↔ ((kept : IsKept journal actor id) × IsUnended c journal id kept.request) }
    ensures nothing_to_collect { (c : Connection) (journal : List Entry) (actor id : ℕ) → IsSettings c.settings → Legal c journal
        → (answer_of (collect (table_of c journal) actor id) ≡ Err take_refusals.NoRequest) ↔ ¬ IsKept journal actor id }
{}
