ghost use Rattle.std.specs.Prelude.{◌≡◌, ◌⊎◌, ℕ, List, ◌++◌, take, Option, Some, Err, IfOk};
ghost use Rattle.link_io.specs.Counts.{Rose};
ghost use Rattle.script_replay.specs.Replays.{Script};
ghost use Rattle.script_replay.specs.declared.replays.ScriptEnd.{ScriptEnd};
ghost use Rattle.host_engine.specs.declared.inputs.How.{How};
ghost use Rattle.host_engine.specs.Lines.{AreWholeLines, lines_of};
ghost use Rattle.host_engine.specs.Statuses.{number_of};
ghost use Rattle.host_engine.specs.Tool.{input_limit, script_last};
ghost use Rattle.host_engine.specs.Runs.{Adds, PutsFront, InputTaken, IsScriptFront};

use crate::closing::close_script;
use crate::faults::Cut;
use crate::inputs::{INPUT_LIMIT, read_input};
use crate::replies::put_answers;
use crate::statuses::Status;
use link_io::{Sink, Source};
use std::alloc::Global;

/// Runs the input as a script. Adds what the run says to what is gathered, of which some may go out on the way, and
/// answers the status.
pub fn replay<S: Source, K: Sink>(
    alloc: Global,
    input: &mut S,
    out: &mut K,
    gathered: &mut Vec<u8>,
) -> Result<Status, Cut>
    ensures said { IfOk result (λ status. (taken : List ℕ) × (how : How) × (text : List ℕ) × (end : ScriptEnd)
        × InputTaken (S.seen input.old) (S.seen input.new) taken (Some how)
        × Script (lines_of (Some how) (take input_limit taken)) text end
        × Adds (K.seen out.old).held (K.seen out.new).held gathered.old.items gathered.new.items (text ++ (script_last (Some how) end).text)
        × (number_of status ≡ (script_last (Some how) end).status)) }
    ensures no_fault { result ≡ Err Cut.WriteFault ⊎ ((K.seen out.new).faults ≡ (K.seen out.old).faults) }
    ensures no_memory { result ≡ Err Cut.NoMemory → (taken : List ℕ) × (how : Option How) × (front : List ℕ)
        × InputTaken (S.seen input.old) (S.seen input.new) taken how
        × IsScriptFront how taken front
        × Adds (K.seen out.old).held (K.seen out.new).held gathered.old.items gathered.new.items front
        × AreWholeLines front }
    ensures cut { result ≡ Err Cut.WriteFault → (taken : List ℕ) × (how : Option How) × (front : List ℕ)
        × InputTaken (S.seen input.old) (S.seen input.new) taken how
        × IsScriptFront how taken front
        × PutsFront (K.seen out.old).held (K.seen out.new).held (gathered.old.items ++ front) }
    ensures fault { result ≡ Err Cut.WriteFault → Rose (K.seen out.old).faults (K.seen out.new).faults }
{
    let script = read_input(alloc, input)?;
    let counted = script.bytes.len().min(INPUT_LIMIT);
    let ended = script.how.has_ended();
    let end = put_answers(alloc, out, gathered, ended, &script.bytes[..counted])?;
    let status = close_script(alloc, gathered, script.how, end)?;
    Ok(status)
}
