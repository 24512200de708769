ghost use Rattle.std.specs.Prelude.{◌≡◌, ℕ, Result};
ghost use Rattle.txn_core.specs.declared.phases.TakeRefusal.{TakeRefusal};
ghost use Rattle.wire_frames.specs.declared.ends.Outcome.{Outcome};
ghost use Rattle.conn_core.specs.Calls.{Cancels, Collects, IsJournalOf, Submits};
ghost use Rattle.conn_core.specs.States.{State};
ghost use Rattle.conn_core.specs.Steps.{Request};
ghost use Rattle.conn_core.specs.declared.answers.Accepted.{Accepted};
ghost use Rattle.conn_core.specs.declared.answers.CancelRefusal.{CancelRefusal};
ghost use Rattle.conn_core.specs.declared.answers.SubmitRefusal.{SubmitRefusal};
ghost use Rattle.conn_laws.specs.CallsByPlaces.{CancelsByPlaces, CollectsByPlaces, IsHistory, SubmitsByPlaces};

use wire_frames::Wire;

/// The laws, said of a `ConnState`'s calls: what `journal` promises of a state makes its journal one history, and a call that
/// keeps what `submit`, `cancel` or `collect` promises answers by places in that journal. `submit` may answer want of memory in its place.
pub fn calls_by_places<W: Wire>()
    ensures journal { (state : State W) → IsJournalOf W.meaning state → IsHistory W.meaning state }
    ensures submit { (q : Request) (old new : State W) (result : Result Accepted SubmitRefusal) → IsJournalOf W.meaning old
        → Submits W.meaning q old new result → SubmitsByPlaces W.meaning q old result }
    ensures cancel { (actor id : ℕ) (old new : State W) (result : Result (Unit {0}) CancelRefusal) → IsJournalOf W.meaning old
        → Cancels W.meaning actor id old new result → CancelsByPlaces W.meaning actor id old result }
    ensures collect { (actor id : ℕ) (old new : State W) (result : Result Outcome TakeRefusal) → IsJournalOf W.meaning old
        → Collects W.meaning actor id old new result → CollectsByPlaces W.meaning actor id old result }
{}

#[cfg(test)]
mod tests {
    use super::calls_by_places;
    use wire_frames::RawWire;

    #[test]
    fn the_raw_wire_is_one_of_them() {
        calls_by_places::<RawWire>();
    }
}
