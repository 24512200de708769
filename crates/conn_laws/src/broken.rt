ghost use Rattle.conn_core.specs.HistoryLaw.{HistoryLaw};
ghost use Rattle.conn_core.specs.Journals.{Legal};
ghost use Rattle.conn_core.specs.Tables.{IsSettings};
ghost use Rattle.conn_laws.specs.BrokenJournals as broken;
ghost use Rattle.conn_laws.specs.BrokenJournals.{raw_line};
ghost use Rattle.conn_laws.specs.OwnEnds.{OwnEnds};

/// What the history law forbids, by small journals of a raw wire with two references: each of them breaks one part of it, so that
/// it isn't legal either. One that breaks nothing is legal, with settings in their ranges; and a journal that wears before its limit
/// isn't, though no request is wronged in it.
pub fn broken_journals()
    ensures settings { IsSettings raw_line.settings }
    ensures answered { Legal raw_line broken.answered }
    ensures ends_twice { ¬ HistoryLaw raw_line broken.ends_twice }
    ensures answered_late { ¬ HistoryLaw raw_line broken.answered_late }
    ensures ends_another { ¬ HistoryLaw raw_line broken.ends_another }
    ensures ends_queued { ¬ HistoryLaw raw_line broken.ends_queued }
    ensures ends_unfit { ¬ HistoryLaw raw_line broken.ends_unfit }
    ensures draws_awaited { ¬ HistoryLaw raw_line broken.draws_awaited }
    ensures draws_live { ¬ HistoryLaw raw_line broken.draws_live }
    ensures draws_past { ¬ HistoryLaw raw_line broken.draws_past }
    ensures same_id { ¬ HistoryLaw raw_line broken.same_id }
    ensures sends_nothing { ¬ HistoryLaw raw_line broken.sends_nothing }
    ensures sends_twice { ¬ HistoryLaw raw_line broken.sends_twice }
    ensures sends_cancelled { ¬ HistoryLaw raw_line broken.sends_cancelled }
    ensures collects_live { ¬ HistoryLaw raw_line broken.collects_live }
    ensures collects_twice { ¬ HistoryLaw raw_line broken.collects_twice }
    ensures collects_as_expired { ¬ HistoryLaw raw_line broken.collects_as_expired }
    ensures stray_answer { ¬ HistoryLaw raw_line broken.stray_answer }
    ensures stray_late { ¬ HistoryLaw raw_line broken.stray_late }
    ensures late_for_none { ¬ HistoryLaw raw_line broken.late_for_none }
    ensures asks_closed { ¬ HistoryLaw raw_line broken.asks_closed }
    ensures closes_twice { ¬ HistoryLaw raw_line broken.closes_twice }
    ensures cancels_others { ¬ OwnEnds raw_line broken.cancels_others }
    ensures wears_early { ¬ Legal raw_line broken.wears_early }
{}
