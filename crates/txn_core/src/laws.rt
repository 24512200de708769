ghost use Rattle.std.specs.Prelude.{◌≡◌, ◌+◌, ◌≤◌, ℕ, Bool, false, None, Some, count_by, length};
ghost use Rattle.txn_core.specs.RowSteps.{ended, ended_all};
ghost use Rattle.txn_core.specs.RowTables.{IsRowTable, Row, RowTable, count_where, first_where, is_live};

/// Requests that end without a reply, one after another and the least id first, end as all of them at once. So a close, a
/// cancellation, a tick and a lease that is lost end theirs in one way, each by its test.
pub fn ends_one_by_one<E: Copy>()
    ensures first { (p : Row (Unit {0}) E → Bool) (kind : E) (t : RowTable (Unit {0}) E) (id : ℕ)
        → IsRowTable t → first_where p t ≡ Some id
        → ended_all p kind (ended id false kind t) ≡ ended_all p kind t }
    ensures last { (p : Row (Unit {0}) E → Bool) (kind : E) (t : RowTable (Unit {0}) E)
        → first_where p t ≡ None → ended_all p kind t ≡ t }
    ensures fewer { (p : Row (Unit {0}) E → Bool) (kind : E) (t : RowTable (Unit {0}) E) (id : ℕ)
        → IsRowTable t → first_where p t ≡ Some id
        → count_where p (ended id false kind t) + 1 ≡ count_where p t }
    ensures none { (p : Row (Unit {0}) E → Bool) (t : RowTable (Unit {0}) E)
        → first_where p t ≡ None → count_where p t ≡ 0 }
{}

/// No more references are free and under way than there are.
pub fn references_are_few<E: Copy>()
    ensures { (t : RowTable (Unit {0}) E) → IsRowTable t
        → length t.free + count_by is_live t.rows ≤ t.references }
{}
