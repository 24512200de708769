ghost use Rattle.std.specs.Prelude.{◌≡◌, ◌+◌, ◌≤◌, ◌⊎◌, ℕ, List, ◌++◌, length, Ok, Err, IfOk};
ghost use Rattle.link_io.specs.Counts.{Rose};
ghost use Rattle.script_lines.specs.Scripts.{IsLine};
ghost use Rattle.script_lines.specs.declared.commands.Command.{Command};
ghost use Rattle.script_replay.specs.Replays.{Script, after_line, command_text, in_64_bits};
ghost use Rattle.script_replay.specs.declared.replays.ScriptEnd.{ScriptEnd};
ghost use Rattle.host_engine.specs.Lines.{AreWholeLines, lines_in};
ghost use Rattle.host_engine.specs.Runs.{Adds, PutsFront};

use crate::faults::Cut;
use crate::inputs::INPUT_LIMIT;
use crate::lines::next_line;
use crate::printing::put_large;
use link_io::Sink;
use script_lines::LineFault;
use script_replay::{Replay, ScriptEnd};
use std::alloc::Global;

/// What came of a line of a script.
#[derive(Clone, Copy, Debug, PartialEq, Eq)]
enum LineOutcome {
    Answered,
    Refused,
}

/// Takes the next line of a script, adds its answer to what is gathered, and puts that out once it is large. A line that is
/// refused changes nothing.
fn put_answer<K: Sink>(
    replay: &mut Replay,
    out: &mut K,
    gathered: &mut Vec<u8>,
    line: &[u8],
) -> Result<LineOutcome, Cut>
    ensures answered { result ≡ Ok LineOutcome.Answered → (command : Command) × IsLine replay.old.next line.now command
        × Adds (K.seen out.old).held (K.seen out.new).held gathered.old.items gathered.new.items (command_text replay.old.conn command)
        × (replay.new ≡ in_64_bits (after_line replay.old command)) }
    ensures refused { result ≡ Ok LineOutcome.Refused → ((command : Command) → IsLine replay.old.next line.now command → ⊥)
        × ((K.seen out.new).held ≡ (K.seen out.old).held) × (gathered.new.items ≡ gathered.old.items) × (replay.new ≡ replay.old) }
    ensures no_fault { result ≡ Err Cut.WriteFault ⊎ ((K.seen out.new).faults ≡ (K.seen out.old).faults) }
    ensures no_memory { result ≡ Err Cut.NoMemory →
        ((K.seen out.new).held ≡ (K.seen out.old).held) × (gathered.new.items ≡ gathered.old.items) }
    ensures cut { result ≡ Err Cut.WriteFault → (command : Command) × IsLine replay.old.next line.now command
        × PutsFront (K.seen out.old).held (K.seen out.new).held (gathered.old.items ++ command_text replay.old.conn command) }
    ensures fault { result ≡ Err Cut.WriteFault → Rose (K.seen out.old).faults (K.seen out.new).faults }
{
    match replay.take_line(line, gathered) {
        Ok(()) => {
            put_large(out, gathered)?;
            Ok(LineOutcome::Answered)
        }
        Err(LineFault::Refused) => Ok(LineOutcome::Refused),
        Err(LineFault::NoMemory) => Err(Cut::NoMemory),
    }
}

/// Puts out the answers of a script's lines, up to the first that is refused, and tells how they end. What isn't put out
/// stays gathered. The bytes are within the limit, so that lines can be counted.
pub fn put_answers<K: Sink>(
    alloc: Global,
    out: &mut K,
    gathered: &mut Vec<u8>,
    ended: bool,
    bytes: &[u8],
) -> Result<ScriptEnd, Cut>
    requires { length bytes.now ≤ INPUT_LIMIT }
    ensures answers { IfOk result (λ end. (text : List ℕ) × Script (lines_in ended bytes.now) text end
        × Adds (K.seen out.old).held (K.seen out.new).held gathered.old.items gathered.new.items text) }
    ensures no_fault { result ≡ Err Cut.WriteFault ⊎ ((K.seen out.new).faults ≡ (K.seen out.old).faults) }
    ensures no_memory { result ≡ Err Cut.NoMemory → (front rest : List ℕ) × (end : ScriptEnd)
        × Script (lines_in ended bytes.now) (front ++ rest) end
        × Adds (K.seen out.old).held (K.seen out.new).held gathered.old.items gathered.new.items front
        × AreWholeLines front }
    ensures cut { result ≡ Err Cut.WriteFault → (front rest : List ℕ) × (end : ScriptEnd)
        × Script (lines_in ended bytes.now) (front ++ rest) end
        × PutsFront (K.seen out.old).held (K.seen out.new).held (gathered.old.items ++ front) }
    ensures fault { result ≡ Err Cut.WriteFault → Rose (K.seen out.old).faults (K.seen out.new).faults }
{
    let mut replay = Replay::new(alloc);
    let mut rest = bytes;
    while let Some((line, more)) = next_line(ended, rest) {
        match put_answer(&mut replay, out, gathered, line)? {
            LineOutcome::Answered => rest = more,
            LineOutcome::Refused => {
                let line = replay.next_number();
                return Ok(ScriptEnd::Refused { line });
            }
        }
    }
    Ok(ScriptEnd::Answered {
        next: replay.next_number(),
        entries: replay.entries(),
    })
}
