ghost use Rattle.std.specs.Prelude.{List};
ghost use Rattle.conn_core.specs.HistoryLaw.{HistoryLaw};
ghost use Rattle.conn_core.specs.Journals.{Legal};
ghost use Rattle.conn_core.specs.Tables.{Connection, IsSettings};
ghost use Rattle.conn_core.specs.declared.entries.Entry.{Entry};
ghost use Rattle.conn_laws.specs.HistoryTable.{HistoryTable};
ghost use Rattle.conn_laws.specs.OwnEnds.{OwnEnds};

/// Every legal journal of a connection whose settings lie in their ranges is one history, by places in the journal.
///
/// `law`: each request ends at its end place and has ended by the close; a reply ends it only after its sending, with its
/// reference and as it fits; a late or stray frame ends nothing; a reference is drawn only while it is neither live nor awaited;
/// and behind a close only collections stand. `own_ends`: a request ends once, in one way, by its own actor or its own reply, and
/// nothing is awaited twice under one reference. `table`: what the table keeps of rows and references is what those places say.
pub fn history()
    ensures law { (c : Connection) (journal : List Entry) → IsSettings c.settings → Legal c journal → HistoryLaw c journal }
    ensures own_ends { (c : Connection) (journal : List Entry) → IsSettings c.settings → Legal c journal → OwnEnds c journal }
    ensures table { (c : Connection) (journal : List Entry) → IsSettings c.settings → Legal c journal → HistoryTable c journal }
{}
