ghost use Rattle.std.specs.Prelude.{◌≡◌, ◌⊎◌, ℕ, List, Ok, Err, IfOk};
ghost use Rattle.mspec_tree.specs.declared.defs.Description.{Description};
ghost use Rattle.host_engine.specs.Tool.{AreOverFile, AreReplay};
ghost use Rattle.host_engine.specs.declared.words.FileCommand.{FileCommand};
ghost use Rattle.host_engine.specs.Runs.{IsReady, LacksFile, RunsTo, StopsEarly, shown};
ghost use Rattle.host_engine.specs.Statuses.{number_of};

use crate::closing::{close, say};
use crate::faults::Cut;
use crate::inputs::{INPUT_LIMIT, read_input};
use crate::preparing::prepare;
use crate::statuses::Status;
use crate::values::put_values;
use link_io::{Shelf, Sink, Source, StringList};
use std::alloc::Global;

/// Decodes the input by the file and the type that the words name, or tells why it can't. Adds what the run says to what is
/// gathered, of which some may go out on the way, and answers the status.
pub fn decode<F: Shelf, S: Source, K: Sink>(
    alloc: Global,
    words: &StringList,
    files: &mut F,
    input: &mut S,
    out: &mut K,
    gathered: &mut Vec<u8>,
) -> Result<Status, Cut>
    requires no_replay { AreReplay words.now → ⊥ }
    requires no_other { (command : FileCommand) (file_name : List ℕ) → AreOverFile words.now command file_name → ⊥ }
    ensures run { RunsTo words.now F.counts_with
        (shown (F.seen files.old) (S.seen input.old) (K.seen out.old))
        (shown (F.seen files.new) (S.seen input.new) (K.seen out.new)) gathered.old.items gathered.new.items result }
    ensures lacking { LacksFile words.now (F.seen files.old)
        → (input.new ≡ input.old) × ((result ≡ Ok Status.FileFault) ⊎ (result ≡ Err Cut.NoMemory)) }
    ensures touched { (input.new ≡ input.old) ⊎ ((d : Description) × (def : ℕ)
        × IsReady words.now F.counts_with (F.seen files.old) (F.seen files.new) d def) }
    ensures untouched { IfOk result (λ status. StopsEarly (number_of status) → input.new ≡ input.old) }
{
    let ready = match prepare(alloc, words, files) {
        Ok(ready) => ready,
        Err(refusal) => return say(alloc, gathered, refusal),
    };
    let capture = read_input(alloc, input)?;
    let counted = capture.bytes.len().min(INPUT_LIMIT);
    let rest = put_values(
        alloc,
        out,
        gathered,
        ready.checked.description(),
        ready.def,
        &capture.bytes[..counted],
    )?;
    let status = close(alloc, gathered, capture.how, rest)?;
    Ok(status)
}
