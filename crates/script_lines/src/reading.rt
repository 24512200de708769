ghost use Rattle.std.specs.Prelude.{◌≡◌, ◌⊎◌, ℕ, List, Err, IfOk};
ghost use Rattle.script_lines.specs.Scripts.{IsLine};
ghost use Rattle.script_lines.specs.declared.commands.Command.{Command};

use crate::commands::{Command, LineFault};
use crate::places::is_at;
use crate::spellings::read_words;
use crate::words::split_words;
use std::alloc::Global;

/// A line is at most one command.
pub fn one_command()
    ensures { (n : ℕ) (line : List ℕ) (command other : Command) → IsLine n line command → IsLine n line other
        → command ≡ other }
{}

/// A line is a command at its number, or none is.
pub fn command_or_none()
    ensures { (n : ℕ) (line : List ℕ)
        → ((command : Command) × IsLine n line command) ⊎ ((command : Command) → IsLine n line command → ⊥) }
{}

/// Reads the line with this number, counted from 1, as a command of a script. The line is without its end.
pub fn read_command(alloc: Global, number: u64, line: &[u8]) -> Result<Command, LineFault>
    ensures read { IfOk result (λ command. IsLine number line.now command) }
    ensures refused { result ≡ Err LineFault.Refused → (command : Command) → IsLine number line.now command → ⊥ }
{
    let words = split_words(alloc, line).map_err(|_| LineFault::NoMemory)?;
    let command = read_words(alloc, words.as_slice())?;
    if is_at(number, &command) {
        Ok(command)
    } else {
        Err(LineFault::Refused)
    }
}
