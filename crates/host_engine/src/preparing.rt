ghost use Rattle.std.specs.Prelude.{◌≡◌, ◌<◌, ◌≤◌, ◌⊎◌, ℕ, List, Some, Option, Err, length, IfOk, IfErr, IfSome, IsTrue, MatchOption};
ghost use Rattle.std.specs.List.{position};
ghost use Rattle.std.specs.Str.{bytes_eq};
ghost use Rattle.link_io.specs.Streams.{LeavesFiles};
ghost use Rattle.mspec_tree.specs.declared.defs.Description.{Description};
ghost use Rattle.host_engine.specs.Texts.{Describes};
ghost use Rattle.host_engine.specs.Tool.{AreOverFile, AreReplay, Names};
ghost use Rattle.host_engine.specs.declared.words.FileCommand.{FileCommand};
ghost use Rattle.host_engine.specs.Runs.{FileSeen, FileTaken, IsReady, LacksFile};
ghost use Rattle.host_engine.specs.Preparing.{ComesToRefusal, IsRefusedFile, from_file, from_text};

use crate::describing::{TextFault, TextWhy, description_of, is_first_form};
use crate::files::{FileFault, read_file};
use crate::words::decode_words;
use link_io::{Shelf, StringList};
use mspec_check::Checked;
use mspec_tree::{Def, Place};
use std::alloc::Global;

/// What a run needs before it reads its input: an accepted description, and the place of the type in it.
#[derive(Debug, Drop)]
pub struct Prepared {
    pub checked: Checked,
    pub def: u16,
}

/// Why a run stops before it reads its input or speaks of a description.
#[derive(Clone, Copy, Debug, PartialEq, Eq)]
pub enum Refusal {
    WordsRefused,
    FileFault,
    /// The file's text isn't that of an accepted description: at this place it is refused.
    TextRefused { place: Place, why: TextWhy },
    /// The file's description is outside the first form.
    NotBuilt,
    TypeRefused,
    NoMemory,
}

/// The place of the first definition of a name.
fn place_of(defs: &[Def], name: &[u8]) -> Option<usize>
    ensures first { result ≡ position (λ def. bytes_eq def.name name.now) defs.now }
    ensures within { IfSome result (λ place. place < length defs.now) }
{
    defs.iter().position(|def| def.name.as_slice() == name)
}

/// The place of the definition of a name.
fn def_named(checked: &Checked, name: &[u8]) -> Option<u16>
    requires { length checked.now.defs ≤ 1024 }
    ensures { MatchOption result
        ((def : ℕ) → Names checked.now def name.now → ⊥)
        (λ def. Names checked.now def name.now) }
{
    place_of(checked.description().defs.as_slice(), name).map(|place| place as u16)
}

/// Reads the description in the file of a name, which is accepted.
pub fn read_description<F: Shelf>(
    alloc: Global,
    files: &mut F,
    name: &str,
) -> Result<Checked, Refusal>
    ensures described { IfOk result (λ d. (text : List ℕ)
        × FileSeen name.now (F.seen files.old) (F.seen files.new) (Some text)
        × Describes text d) }
    ensures others { (other : List ℕ) → (F.counts_with name.now other → ⊥)
        → (F.seen files.new).faults other ≡ (F.seen files.old).faults other }
    ensures files { LeavesFiles (F.seen files.old) (F.seen files.new) }
    ensures lacking { IsTrue ((F.seen files.old).lacks name.now) → result ≡ Err Refusal.FileFault }
    ensures refused { IfErr result (λ refusal. (file : Option (List ℕ))
        × FileSeen name.now (F.seen files.old) (F.seen files.new) file
        × IsRefusedFile file refusal) }
{
    let text = read_file(alloc, files, name)?;
    let checked = description_of(alloc, &text)?;
    Ok(checked)
}

/// Reads the file that the words name and finds their type in it.
pub fn prepare<F: Shelf>(
    alloc: Global,
    words: &StringList,
    files: &mut F,
) -> Result<Prepared, Refusal>
    requires no_replay { AreReplay words.now → ⊥ }
    requires no_other { (command : FileCommand) (file_name : List ℕ) → AreOverFile words.now command file_name → ⊥ }
    ensures ready { IfOk result (λ ready.
        IsReady words.now F.counts_with (F.seen files.old) (F.seen files.new) ready.checked ready.def) }
    ensures files { LeavesFiles (F.seen files.old) (F.seen files.new) }
    ensures lacking { LacksFile words.now (F.seen files.old) → result ≡ Err Refusal.FileFault }
    ensures refused { IfErr result (λ refusal. (file : Option (List ℕ))
        × FileTaken words.now F.counts_with (F.seen files.old) (F.seen files.new) file
        × ComesToRefusal words.now file refusal) }
{
    let Some(found) = decode_words(words) else {
        return Err(Refusal::WordsRefused);
    };
    let checked = read_description(alloc, files, found.file_name)?;
    if !is_first_form(checked.description()) {
        return Err(Refusal::NotBuilt);
    }
    match def_named(&checked, found.type_name) {
        Some(def) => Ok(Prepared { checked, def }),
        None => Err(Refusal::TypeRefused),
    }
}

impl From<FileFault> for Refusal {
    ghost from_gives = { λ fault refusal. refusal ≡ from_file fault };

    fn from(fault: FileFault) -> Refusal {
        match fault {
            FileFault::Failed => Refusal::FileFault,
            FileFault::NoMemory => Refusal::NoMemory,
        }
    }
}

impl From<TextFault> for Refusal {
    ghost from_gives = { λ fault refusal. refusal ≡ from_text fault };

    fn from(fault: TextFault) -> Refusal {
        match fault {
            TextFault::At { place, why } => Refusal::TextRefused { place, why },
            TextFault::NoMemory => Refusal::NoMemory,
        }
    }
}
