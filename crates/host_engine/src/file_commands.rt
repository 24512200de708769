ghost use Rattle.std.specs.Prelude.{◌≡◌, ◌⊎◌, ◌++◌, ℕ, List, Option, Ok, Err, IfOk, IsTrue, OnOk, OnErr};
ghost use Rattle.link_io.specs.Streams.{LeavesFiles};
ghost use Rattle.host_engine.specs.Preparing.{AnswerComesTo};
ghost use Rattle.host_engine.specs.Runs.{FileSeen};
ghost use Rattle.host_engine.specs.Statuses.{number_of};
ghost use Rattle.host_engine.specs.Tool.{Course, answer_of, said};

use crate::closing::say;
use crate::faults::Cut;
use crate::preparing::read_description;
use crate::statuses::Status;
use crate::words::FileCommand;
use link_io::Shelf;
use mspec_printer::print_description;
use mspec_tree::Description;
use std::alloc::{AllocError, Global};

/// What `check` says of an accepted description.
const ACCEPTED_LINE: &[u8] = b"accepted\n";

/// Adds what a command says of an accepted description. An `Err` changes nothing.
fn add_answer(
    alloc: Global,
    gathered: &mut Vec<u8>,
    command: FileCommand,
    description: &Description,
) -> Result<(), AllocError>
    ensures added { OnOk result (gathered.new.items ≡ gathered.old.items ++ answer_of command description.now) }
    ensures unchanged { OnErr result (gathered.new.items ≡ gathered.old.items) }
{
    match command {
        FileCommand::Check => gathered.extend_from_slice(ACCEPTED_LINE),
        FileCommand::Print => {
            let text = print_description(alloc, description)?;
            gathered.extend_from_slice(text.as_slice())
        }
    }
}

/// Adds what a command says of the description in the file of a name to what is gathered, or why that is refused, and answers
/// the status. An `Err`, which is want of memory, adds nothing.
pub fn answer<F: Shelf>(
    alloc: Global,
    files: &mut F,
    command: FileCommand,
    name: &str,
    gathered: &mut Vec<u8>,
) -> Result<Status, Cut>
    ensures said { IfOk result (λ status. (file : Option (List ℕ)) × (course : Course)
        × FileSeen name.now (F.seen files.old) (F.seen files.new) file
        × AnswerComesTo command file course
        × (gathered.new.items ≡ gathered.old.items ++ (said None course).text)
        × (number_of status ≡ (said None course).status)) }
    ensures no_memory { result ≡ Err Cut.NoMemory → (file : Option (List ℕ))
        × FileSeen name.now (F.seen files.old) (F.seen files.new) file
        × (gathered.new.items ≡ gathered.old.items) }
    ensures puts_nothing { result ≡ Err Cut.WriteFault → ⊥ }
    ensures others { (other : List ℕ) → (F.counts_with name.now other → ⊥)
        → (F.seen files.new).faults other ≡ (F.seen files.old).faults other }
    ensures files { LeavesFiles (F.seen files.old) (F.seen files.new) }
    ensures lacking { IsTrue ((F.seen files.old).lacks name.now)
        → (result ≡ Ok Status.FileFault) ⊎ (result ≡ Err Cut.NoMemory) }
{
    let checked = match read_description(alloc, files, name) {
        Ok(checked) => checked,
        Err(refusal) => return say(alloc, gathered, refusal),
    };
    add_answer(alloc, gathered, command, checked.description())?;
    Ok(Status::Well)
}
