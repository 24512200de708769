//! Which command may stand at which line.

ghost use Rattle.std.specs.Prelude.{◌≡◌};
ghost use Rattle.script_lines.specs.ReaderParts.{is_at};

use crate::commands::Command;

/// Whether the command may stand at the line with this number: the table at the first line, and calls behind it.
pub fn is_at(number: u64, command: &Command) -> bool
    ensures { result ≡ is_at number command.now }
{
    match command {
        Command::Table(_) => number == 1,
        Command::Calls(_) => 2 <= number,
    }
}
