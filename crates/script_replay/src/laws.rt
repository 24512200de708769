ghost use Rattle.std.specs.Prelude.{◌≡◌, ◌≤◌, ◌-◌, ◌++◌, ℕ, List, length, take, slice_get, codes, Some, None};
ghost use Rattle.std.specs.List.{AllByRecursion, flat_map};
ghost use Rattle.answer_texts.specs.Lines.{IsWordLine};
ghost use Rattle.conn_core.specs.Journals.{Legal};
ghost use Rattle.conn_core.specs.States.{State, connection_of};
ghost use Rattle.script_lines.specs.Scripts.{IsLine};
ghost use Rattle.script_lines.specs.declared.commands.Command.{Command};
ghost use Rattle.script_replay.specs.Replays.{Leads, Script, answers_by, raw};
ghost use Rattle.script_replay.specs.declared.replays.ScriptEnd.{ScriptEnd};
ghost use Rattle.script_replay.specs.declared.replays.ScriptEnd.TheVariants.{Answered, Refused};
ghost use Rattle.wire_frames.specs.declared.raw.RawWire.{RawWire};

/// A script that was answered up to some line behind its first has come to a connection, whose journal has so many entries and
/// is legal.
pub fn keeps_a_legal_journal()
    ensures { (lines : List (List ℕ)) (text : List ℕ) (next entries : ℕ) → Script lines text (Answered next entries) → 2 ≤ next
        → (state : State RawWire) × Legal (connection_of raw state.key) state.journal × (entries ≡ length state.journal)
        × Leads (record { next = 1; conn = None }) lines (record { next = next; conn = Some state }) }
{}

/// Each list of lines is answered by some text, up to its end or to a line that is refused.
pub fn some_script()
    ensures { (lines : List (List ℕ)) → (text : List ℕ) × (end : ScriptEnd) × Script lines text end }
{}

/// A script's text has one line for each line that was taken but the first, of words that stand apart by one space.
pub fn answered_line_by_line()
    ensures { (lines : List (List ℕ)) (text : List ℕ) (end : ScriptEnd) → Script lines text end
        → (answers : List (List ℕ)) × AllByRecursion IsWordLine answers
        × (text ≡ flat_map (λ answer. answer ++ codes "\n") answers) × (length answers ≡ answers_by end) }
{}

/// The first lines of a script are answered by a front of its text, whatever lines follow them.
pub fn fronts_are_answered()
    ensures { (lines : List (List ℕ)) (text : List ℕ) (end : ScriptEnd) (count : ℕ) → Script lines text end
        → (front rest : List ℕ) × (last : ScriptEnd) × (text ≡ front ++ rest) × Script (take count lines) front last }
{}

/// A line is refused where the lines before it are answered, by the same text, and it is no command at its number.
pub fn refused_behind_answered()
    ensures { (lines : List (List ℕ)) (text : List ℕ) (n : ℕ) → Script lines text (Refused n)
        → (line : List ℕ) × (entries : ℕ) × (slice_get lines (n - 1) ≡ Some line)
        × ((command : Command) → IsLine n line command → ⊥)
        × Script (take (n - 1) lines) text (Answered n entries) }
{}

/// Lines have one text and one end.
pub fn one_script()
    ensures { (lines : List (List ℕ)) (text other : List ℕ) (end last : ScriptEnd)
        → Script lines text end → Script lines other last → (text ≡ other) × (end ≡ last) }
{}
