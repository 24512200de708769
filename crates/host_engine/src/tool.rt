ghost use Rattle.std.specs.Prelude.{◌≡◌, ◌≢◌, ◌+◌, ◌<◌, ◌⊎◌, ℕ, false, List, [], ◌++◌, take, None, Some, Ok, Err, IfOk, OnOk, OnErr};
ghost use Rattle.link_io.specs.Counts.{Rose};
ghost use Rattle.link_io.specs.Streams.{after_taking};
ghost use Rattle.mspec_tree.specs.declared.defs.Description.{Description};
ghost use Rattle.mspec_tree.specs.declared.words.Place.{Place};
ghost use Rattle.node_tree.specs.declared.readings.Reading.{Reading};
ghost use Rattle.mspec_meaning.specs.Stream.{End, Refused, Stream, TooFew, Why};
ghost use Rattle.script_replay.specs.Replays.{Script};
ghost use Rattle.script_replay.specs.declared.replays.ScriptEnd.{ScriptEnd};
ghost use Rattle.host_engine.specs.declared.describing.TextWhy.{TextWhy};
ghost use Rattle.host_engine.specs.FirstForm.{FirstForm, is_first_form};
ghost use Rattle.host_engine.specs.Lines.{lines_of};
ghost use Rattle.host_engine.specs.Runs.{FileSeen, InputTaken, IsCountedWithFile, IsReady, IsRun, LacksFile, PutsFront, RunsTo, StopsEarly, WasChecked, WasDecoded, WasPrinted, WasReplayed, last_of, shown};
ghost use Rattle.host_engine.specs.Statuses.{number_of};
ghost use Rattle.host_engine.specs.Texts.{Describes, IsRefusedText, text_why_text};
ghost use Rattle.host_engine.specs.Told.{IsTold, NoneFailed, TellsScript, TellsValues};
ghost use Rattle.host_engine.specs.Tool.{AreCheck, AreDecode, AreOverFile, ArePrint, AreRefused, AreReplay, Names, NamesFile, Said, Taken, Tool, description_refused, input_limit, refusal_of_line, refused_line};
ghost use Rattle.host_engine.specs.declared.words.FileCommand.{FileCommand};
ghost use Rattle.host_engine.specs.declared.inputs.How.{How};

use crate::decoding::decode;
use crate::faults::Cut;
use crate::file_commands::answer;
use crate::printing::put_all;
use crate::replaying::replay;
use crate::statuses::Status;
use crate::words::{file_words, is_replay};
use link_io::{Failed, Shelf, Sink, Source, StringList};
use std::alloc::Global;

/// By its words, and what it took, a run says one thing.
pub fn one_said()
    ensures { (words : List (List ℕ)) (t : Taken) (one other : Said) → Tool words t one → Tool words t other
        → one ≡ other }
{}

/// By its words, and what it took of an input that it left, a run says something. It says something too where it left the input
/// alone, and its words, its file and the type in it lead to no script and to no values.
pub fn some_said()
    ensures left { (words : List (List ℕ)) (t : Taken) (left : How) → t.how ≡ Some left → (outcome : Said)
        × Tool words t outcome }
    ensures alone { (words : List (List ℕ)) (t : Taken) → t.how ≡ None → (AreReplay words → ⊥)
        → ((file_name type_name text : List ℕ) (d : Description) (def : ℕ)
        → AreDecode words file_name type_name → t.file ≡ Some text → FirstForm text d → Names d def type_name → ⊥)
        → (outcome : Said) × Tool words t outcome }
{}

/// A description in the first form refuses no value.
pub fn no_form_refuses()
    ensures { (text : List ℕ) (d : Description) (def : ℕ) (bytes : List ℕ) (readings : List Reading) (bit : ℕ) (why : Why)
        → FirstForm text d → Stream d def [] bytes readings (Refused bit why) → ⊥ }
{}

/// Adds what the run says to what is gathered, of which some may go out on the way, and answers the status.
fn run<F: Shelf, S: Source, K: Sink>(
    alloc: Global,
    words: &StringList,
    files: &mut F,
    input: &mut S,
    out: &mut K,
    gathered: &mut Vec<u8>,
) -> Result<Status, Cut>
    ensures run { RunsTo words.now F.counts_with
        (shown (F.seen files.old) (S.seen input.old) (K.seen out.old))
        (shown (F.seen files.new) (S.seen input.new) (K.seen out.new)) gathered.old.items gathered.new.items result }
    ensures lacking { LacksFile words.now (F.seen files.old)
        → (input.new ≡ input.old) × ((result ≡ Ok Status.FileFault) ⊎ (result ≡ Err Cut.NoMemory)) }
    ensures touched { (input.new ≡ input.old) ⊎ ((d : Description) × (def : ℕ)
        × IsReady words.now F.counts_with (F.seen files.old) (F.seen files.new) d def) ⊎ AreReplay words.now }
    ensures untouched { IfOk result (λ status. StopsEarly (number_of status) → input.new ≡ input.old) }
    ensures file_alone { (command : FileCommand) (file_name : List ℕ) → AreOverFile words.now command file_name
        → input.new ≡ input.old }
{
    if is_replay(words) {
        replay(alloc, input, out, gathered)
    } else {
        match file_words(words) {
            Some(found) => answer(alloc, files, found.command, found.file_name, gathered),
            None => decode(alloc, words, files, input, out, gathered),
        }
    }
}

fn put_and_flush<K: Sink>(out: &mut K, gathered: &[u8], last: &[u8]) -> Result<(), Failed>
    ensures put { OnOk result (((K.seen out.new).held ≡ after_taking (gathered.now ++ last.now) (K.seen out.old).held)
        × ((K.seen out.new).faults ≡ (K.seen out.old).faults)) }
    ensures cut { OnErr result (PutsFront (K.seen out.old).held (K.seen out.new).held (gathered.now ++ last.now)
        × Rose (K.seen out.old).faults (K.seen out.new).faults) }
{
    put_all(out, gathered)?;
    put_all(out, last)?;
    out.flush()
}

/// The line that stands behind what a run has said.
fn last_line(ran: Result<Status, Cut>) -> &'static [u8]
    ensures { result.now ≡ (last_of ran).text }
{
    match ran {
        Err(Cut::NoMemory) => b"no memory\n",
        _ => b"",
    }
}

/// Puts the rest of a run's text out, and its last line. Where the output fails the run is cut off.
fn put_last<K: Sink>(out: &mut K, gathered: &[u8], ran: Result<Status, Cut>) -> Result<Status, Cut>
    ensures done { result ≢ Err Cut.WriteFault → (result ≡ ran)
        × ((K.seen out.new).held ≡ after_taking (gathered.now ++ (last_of ran).text) (K.seen out.old).held)
        × ((K.seen out.new).faults ≡ (K.seen out.old).faults) }
    ensures cut { result ≡ Err Cut.WriteFault → ran ≢ Err Cut.WriteFault
        → PutsFront (K.seen out.old).held (K.seen out.new).held (gathered.now ++ (last_of ran).text)
        × Rose (K.seen out.old).faults (K.seen out.new).faults }
    ensures failed { ran ≡ Err Cut.WriteFault → (result ≡ ran) × (out.new ≡ out.old) }
{
    if let Err(Cut::WriteFault) = ran {
        return ran;
    }
    put_and_flush(out, gathered, last_line(ran))?;
    ran
}

/// Puts the rest of a run's text out, behind it a line where memory ran out, and answers the status.
pub fn conclude<K: Sink>(out: &mut K, gathered: &[u8], ran: Result<Status, Cut>) -> u8
    ensures done { result ≢ 5 → (result ≡ (last_of ran).status)
        × ((K.seen out.new).held ≡ after_taking (gathered.now ++ (last_of ran).text) (K.seen out.old).held)
        × ((K.seen out.new).faults ≡ (K.seen out.old).faults) }
    ensures cut { result ≡ 5 → ran ≢ Err Cut.WriteFault
        → PutsFront (K.seen out.old).held (K.seen out.new).held (gathered.now ++ (last_of ran).text)
        × Rose (K.seen out.old).faults (K.seen out.new).faults }
    ensures failed { ran ≡ Err Cut.WriteFault → (result ≡ 5) × (out.new ≡ out.old) }
{
    match put_last(out, gathered, ran) {
        Ok(status) => status.into(),
        Err(cut) => cut.into(),
    }
}

/// Runs the program's commands over files, an input and an output, and answers the status.
///
/// `decode FILE TYPE`: FILE names a description in the first form, and the input is read as values of TYPE one after
/// another, each put out as its listing and an empty line. `replay`: the input is a script, and each line but the first is put
/// out as its answer, and at the end how many entries the journal has. `check FILE` and `print FILE`: FILE names a
/// description, and that it is accepted, or its printed form, is put out. No command takes a description that isn't accepted.
pub fn tool_main<F: Shelf, S: Source, K: Sink>(
    alloc: Global,
    words: &StringList,
    files: &mut F,
    input: &mut S,
    out: &mut K,
) -> u8
    // What is put out is the tool's text, and the status is the tool's; fronts of it where memory ran out or the output failed.
    ensures run { IsRun words.now F.counts_with
        (shown (F.seen files.old) (S.seen input.old) (K.seen out.old))
        (shown (F.seen files.new) (S.seen input.new) (K.seen out.new)) result }
    // The input is touched only where the words, the file and the type lead to values, or a script is to be run, and not
    // where the run stops early.
    ensures touched { (input.new ≡ input.old) ⊎ ((d : Description) × (def : ℕ)
        × IsReady words.now F.counts_with (F.seen files.old) (F.seen files.new) d def) ⊎ AreReplay words.now }
    ensures untouched { StopsEarly result → input.new ≡ input.old }
    ensures print_leaves_input { (file_name : List ℕ) → ArePrint words.now file_name → input.new ≡ input.old }
    ensures check_leaves_input { (file_name : List ℕ) → AreCheck words.now file_name → input.new ≡ input.old }

    // The words are refused where they aren't those of a command, and nowhere else.
    ensures words_refused { result ≡ 2 → AreRefused words.now }
    ensures only_commands { AreRefused words.now → (result ≡ 2) ⊎ ((result ≡ 5) ⊎ (result ≡ 8)) }
    // A description is refused where the text is that of no accepted one, and what is put out says the place and why. It is
    // refused nowhere else, but where values are to be read by one that is outside the first form.
    ensures description_refused { result ≡ 1 → (file_name text : List ℕ) × NamesFile words.now file_name
        × FileSeen file_name (F.seen files.old) (F.seen files.new) (Some text)
        × (((place : Place) × (why : TextWhy) × IsRefusedText text place why
        × ((d : Description) → Describes text d → ⊥)
        × ((K.seen out.new).held ≡ after_taking (description_refused place (text_why_text why)).text (K.seen out.old).held))
        ⊎ ((type_name : List ℕ) × (d : Description) × AreDecode words.now file_name type_name
        × Describes text d × (is_first_form d ≡ false))) }
    ensures none_accepted { (file_name text : List ℕ) → NamesFile words.now file_name
        → (F.seen files.old).file file_name ≡ Some text
        → (Rose ((F.seen files.old).faults file_name) ((F.seen files.new).faults file_name) → ⊥)
        → ((d : Description) → Describes text d → ⊥)
        → (result ≡ 1) ⊎ ((result ≡ 5) ⊎ (result ≡ 8)) }
    // There is no type of that name.
    ensures type_refused { result ≡ 12 → (file_name type_name text : List ℕ) × (d : Description)
        × AreDecode words.now file_name type_name
        × FileSeen file_name (F.seen files.old) (F.seen files.new) (Some text)
        × FirstForm text d × ((def : ℕ) → Names d def type_name → ⊥) }
    // A file fault comes only where FILE's count rose. It comes, unless memory or the output gives out, where that count rose or
    // the shelf tells that there is no FILE, and then the input is left alone. No count changes but those of names that the shelf
    // counts together with FILE, and with words that name no FILE none.
    ensures file_fault { result ≡ 3 → (file_name : List ℕ) × NamesFile words.now file_name
        × Rose ((F.seen files.old).faults file_name) ((F.seen files.new).faults file_name) }
    ensures file_failed { (file_name : List ℕ) → NamesFile words.now file_name
        → (F.seen files.old).faults file_name < (F.seen files.new).faults file_name
        → (result ≡ 3) ⊎ ((result ≡ 5) ⊎ (result ≡ 8)) }
    ensures no_such_file { LacksFile words.now (F.seen files.old)
        → (input.new ≡ input.old) × ((result ≡ 3) ⊎ ((result ≡ 5) ⊎ (result ≡ 8))) }
    ensures other_files { (other : List ℕ) → (IsCountedWithFile F.counts_with words.now other → ⊥)
        → (F.seen files.new).faults other ≡ (F.seen files.old).faults other }
    // A read fault comes only where the input's count rose. The input is too long only where one byte more than the limit was
    // taken of it. It ended where all is well or truncated, but where a description alone was asked for.
    ensures read_fault { result ≡ 4 → Rose (S.seen input.old).faults (S.seen input.new).faults }
    ensures too_long { result ≡ 13 → (taken : List ℕ)
        × InputTaken (S.seen input.old) (S.seen input.new) taken (Some How.Over) }
    ensures read_to_end { ((result ≡ 0) × ((command : FileCommand) (file_name : List ℕ)
        → AreOverFile words.now command file_name → ⊥)) ⊎ (result ≡ 7)
        → Rose (S.seen input.old).ends (S.seen input.new).ends }
    // All is well where the input is values, to its last byte, or a script, or a description was printed, or accepted; the
    // input is truncated where it ends inside a value.
    ensures all_well { result ≡ 0 →
        WasDecoded words.now F.counts_with
        (shown (F.seen files.old) (S.seen input.old) (K.seen out.old))
        (shown (F.seen files.new) (S.seen input.new) (K.seen out.new)) End
        ⊎ WasReplayed words.now
        (shown (F.seen files.old) (S.seen input.old) (K.seen out.old))
        (shown (F.seen files.new) (S.seen input.new) (K.seen out.new))
        ⊎ WasPrinted words.now F.counts_with
        (shown (F.seen files.old) (S.seen input.old) (K.seen out.old))
        (shown (F.seen files.new) (S.seen input.new) (K.seen out.new))
        ⊎ WasChecked words.now F.counts_with
        (shown (F.seen files.old) (S.seen input.old) (K.seen out.old))
        (shown (F.seen files.new) (S.seen input.new) (K.seen out.new)) }
    ensures truncated { result ≡ 7 → (left : ℕ) × WasDecoded words.now F.counts_with
        (shown (F.seen files.old) (S.seen input.old) (K.seen out.old))
        (shown (F.seen files.new) (S.seen input.new) (K.seen out.new)) (TooFew left) }
    // Where the streams tell all and no call fails, the run says what the tool says of what they tell, but for want of memory.
    ensures complete { (t : Taken) (outcome : Said) → IsTold words.now (F.seen files.old) (S.seen input.old) t
        → Tool words.now t outcome
        → NoneFailed words.now
        (shown (F.seen files.old) (S.seen input.old) (K.seen out.old))
        (shown (F.seen files.new) (S.seen input.new) (K.seen out.new))
        → (result ≡ 8) ⊎ ((result ≡ outcome.status)
        × ((K.seen out.new).held ≡ after_taking outcome.text (K.seen out.old).held)) }
    ensures values_end_well { TellsValues words.now (F.seen files.old) (S.seen input.old)
        → NoneFailed words.now
        (shown (F.seen files.old) (S.seen input.old) (K.seen out.old))
        (shown (F.seen files.new) (S.seen input.new) (K.seen out.new))
        → (result ≡ 0) ⊎ (result ≡ 8) }
    ensures script_ends_well { TellsScript words.now (S.seen input.old)
        → NoneFailed words.now
        (shown (F.seen files.old) (S.seen input.old) (K.seen out.old))
        (shown (F.seen files.new) (S.seen input.new) (K.seen out.new))
        → (result ≡ 0) ⊎ (result ≡ 8) }
    ensures print_ends_well { (file_name text : List ℕ) (d : Description) → ArePrint words.now file_name
        → (F.seen files.old).file file_name ≡ Some text → Describes text d
        → (Rose ((F.seen files.old).faults file_name) ((F.seen files.new).faults file_name) → ⊥)
        → (Rose (K.seen out.old).faults (K.seen out.new).faults → ⊥)
        → (result ≡ 0) ⊎ (result ≡ 8) }
    ensures check_ends_well { (file_name text : List ℕ) (d : Description) → AreCheck words.now file_name
        → (F.seen files.old).file file_name ≡ Some text → Describes text d
        → (Rose ((F.seen files.old).faults file_name) ((F.seen files.new).faults file_name) → ⊥)
        → (Rose (K.seen out.old).faults (K.seen out.new).faults → ⊥)
        → (result ≡ 0) ⊎ (result ≡ 8) }
    // Status 6 doesn't come, since a description in the first form refuses no value.
    ensures no_value_refused { result ≢ 6 }
    // A line is refused only where it is the first that is no line of a script there, or the first line is missing.
    ensures line_refused { result ≡ 10 → AreReplay words.now
        × ((taken : List ℕ) × (left : How) × (text : List ℕ) × (end : ScriptEnd) × (line : ℕ)
        × InputTaken (S.seen input.old) (S.seen input.new) taken (Some left)
        × Script (lines_of (Some left) (take input_limit taken)) text end
        × (refused_line left end ≡ Some line)
        × ((K.seen out.new).held ≡ after_taking (text ++ (refusal_of_line line).text) (K.seen out.old).held)) }
{
    let mut gathered = Vec::new(alloc);
    let ran = run(alloc, words, files, input, out, &mut gathered);
    conclude(out, &gathered, ran)
}
