ghost use Rattle.std.specs.Prelude.{◌≡◌, ◌+◌, ◌⊎◌, ◌<◌, ℕ, List, take, length, Err, IfOk, IfSome, IsTrue};
ghost use Rattle.link_io.specs.Counts.{Rose};
ghost use Rattle.link_io.specs.Streams.{LeavesFiles};
ghost use Rattle.host_engine.specs.declared.files.FileFault.TheVariants.{NoMemory};

use crate::inputs::PIECE;
use link_io::{Failed, Shelf};
use std::alloc::{AllocError, Global};

/// The most bytes of a description.
const MAX_BYTES: usize = 1_048_576;

/// Why a file wasn't read.
#[derive(Clone, Copy, Debug, PartialEq, Eq)]
pub enum FileFault {
    Failed,
    NoMemory,
}

impl From<AllocError> for FileFault {
    ghost from_gives = { λ _ e. e ≡ NoMemory };

    fn from(_error: AllocError) -> FileFault {
        FileFault::NoMemory
    }
}

impl From<Failed> for FileFault {
    ghost use Rattle.host_engine.specs.declared.files.FileFault.TheVariants.{Failed as FileFailed};

    ghost from_gives = { λ _ e. e ≡ FileFailed };

    fn from(_error: Failed) -> FileFault {
        FileFault::Failed
    }
}

/// Reads the file of a name, up to one byte past the greatest length of a description.
pub fn read_file<F: Shelf>(alloc: Global, files: &mut F, name: &str) -> Result<Vec<u8>, FileFault>
    ensures text { IfOk result (λ text. IfSome ((F.seen files.old).file name.now) (λ bytes.
        text.items ≡ take (1 + MAX_BYTES) bytes)) }
    ensures lacking { IsTrue ((F.seen files.old).lacks name.now) → result ≡ Err FileFault.Failed }
    ensures files { LeavesFiles (F.seen files.old) (F.seen files.new) }
    ensures no_fault { result ≡ Err FileFault.Failed
        ⊎ ((other : List ℕ) → (F.seen files.new).faults other ≡ (F.seen files.old).faults other) }
    ensures others { (other : List ℕ) → (F.counts_with name.now other → ⊥)
        → (F.seen files.new).faults other ≡ (F.seen files.old).faults other }
    ensures fault { result ≡ Err FileFault.Failed
        → Rose ((F.seen files.old).faults name.now) ((F.seen files.new).faults name.now) }
{
    let mut text = Vec::new(alloc);
    let mut buffer = [0; PIECE];
    while text.len() <= MAX_BYTES {
        let room = PIECE.min(MAX_BYTES + 1 - text.len());
        let piece = &mut buffer[..room];
        let count = files.read_at(name, text.len() as u64, piece)?;
        if count == 0 {
            return Ok(text);
        }
        text.extend_from_slice(&piece[..count])?;
    }
    Ok(text)
}
