ghost use Rattle.std.specs.Prelude.{◌≡◌, ℕ, List, [], IsTrue, ◌↔◌, MatchOption};
ghost use Rattle.host_engine.specs.Tool.{AreDecode, AreOverFile, AreReplay, IsPositional, command_word};
ghost use Rattle.host_engine.specs.declared.words.FileCommand.{FileCommand};

use link_io::StringList;

/// The words behind `decode`.
#[derive(Clone, Copy, Debug)]
pub struct DecodeWords<'a> {
    pub file_name: &'a str,
    pub type_name: &'a [u8],
}

/// A command over a file alone.
#[derive(Clone, Copy, Debug, PartialEq, Eq)]
pub enum FileCommand {
    /// Whether its text is that of an accepted description.
    Check,
    /// The printed form of its description.
    Print,
}

/// The words of a command over a file alone.
#[derive(Clone, Copy, Debug)]
pub struct FileWords<'a> {
    pub command: FileCommand,
    pub file_name: &'a str,
}

/// Whether a word may stand in a place of its own: it isn't empty and begins with no `-`.
fn is_positional(word: &str) -> bool
    ensures { IsTrue result ↔ IsPositional word.now }
{
    match word.as_bytes() {
        [] => false,
        [first, ..] => *first != b'-',
    }
}

/// The words of `decode FILE TYPE`, if they are these.
pub fn decode_words(words: &StringList) -> Option<DecodeWords<'_>>
    ensures { MatchOption result
        ((file_name type_name : List ℕ) → AreDecode words.now file_name type_name → ⊥)
        (λ found. AreDecode words.now found.file_name.now found.type_name.now) }
{
    if words.len() != 3 {
        return None;
    }
    let (command, file_name, type_name) = (words.get(0)?, words.get(1)?, words.get(2)?);
    if command == "decode" && is_positional(file_name) && is_positional(type_name) {
        Some(DecodeWords {
            file_name,
            type_name: type_name.as_bytes(),
        })
    } else {
        None
    }
}

/// The command over a file that a word names.
fn file_command(word: &str) -> Option<FileCommand>
    ensures { MatchOption result
        ((command : FileCommand) → word.now ≡ command_word command → ⊥)
        (λ command. word.now ≡ command_word command) }
{
    if word == "check" {
        Some(FileCommand::Check)
    } else if word == "print" {
        Some(FileCommand::Print)
    } else {
        None
    }
}

/// The words of `check FILE` or `print FILE`, if they are these.
pub fn file_words(words: &StringList) -> Option<FileWords<'_>>
    ensures { MatchOption result
        ((command : FileCommand) (file_name : List ℕ) → AreOverFile words.now command file_name → ⊥)
        (λ found. AreOverFile words.now found.command found.file_name.now) }
{
    if words.len() != 2 {
        return None;
    }
    let (word, file_name) = (words.get(0)?, words.get(1)?);
    let command = file_command(word)?;
    if is_positional(file_name) {
        Some(FileWords { command, file_name })
    } else {
        None
    }
}

/// Whether the words are `replay`.
pub fn is_replay(words: &StringList) -> bool
    ensures { IsTrue result ↔ AreReplay words.now }
{
    match words.get(0) {
        Some(command) if words.len() == 1 => command == "replay",
        _ => false,
    }
}
