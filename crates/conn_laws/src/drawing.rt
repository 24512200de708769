ghost use Rattle.std.specs.Prelude.{◌≡◌, ◌⊎◌, ◌↔◌, ℕ, List, Ok, Err};
ghost use Rattle.txn_core.specs.RowSteps.{answer_of};
ghost use Rattle.conn_core.specs.Journals.{Legal, table_of};
ghost use Rattle.conn_core.specs.Steps.{Request, Started, submit};
ghost use Rattle.conn_core.specs.Tables.{Connection, IsSettings};
ghost use Rattle.conn_core.specs.declared.answers.SubmitRefusal.TheVariants as submit_refusals;
ghost use Rattle.conn_core.specs.declared.entries.Entry.{Entry};
ghost use Rattle.conn_laws.specs.Drawing.{AllTaken, IsFirstFree, PassesTests, started_with};

/// When `submit` finds no reference after a legal journal, and which one it draws else, by places in the journal.
///
/// `no_reference`: it answers `NoReference` exactly where the request passes the tests before and each reference of the connection
/// is live or awaited; its frame is then spelled under the reference 1. `else_draws`: else one reference is the first free one,
/// and every request that passes those tests with it draws it, whatever it asks. `accepted`: no request is accepted in another way.
pub fn no_reference_is_exact()
    ensures no_reference { (c : Connection) (journal : List Entry) (q : Request) → IsSettings c.settings → Legal c journal
        → (submit c.wire (table_of c journal) q ≡ Err submit_refusals.NoReference)
        ↔ (PassesTests c journal q 1 × AllTaken c journal) }
    ensures else_draws { (c : Connection) (journal : List Entry) → IsSettings c.settings → Legal c journal
        → AllTaken c journal
        ⊎ ((reference : ℕ) × IsFirstFree c journal reference
        × ((q : Request) (p : PassesTests c journal q reference) → answer_of (submit c.wire (table_of c journal) q) ≡ Ok (started_with p))) }
    ensures accepted { (c : Connection) (journal : List Entry) (q : Request) (started : Started) → IsSettings c.settings → Legal c journal
        → answer_of (submit c.wire (table_of c journal) q) ≡ Ok started
        → (p : PassesTests c journal q started.reference) × (started ≡ started_with p) × IsFirstFree c journal started.reference }
{}
