ghost use Rattle.std.specs.Prelude.{◌≡◌, ℕ, List, Option, Some, IfOk, IfErr};
ghost use Rattle.host_engine.specs.declared.inputs.How.{How};
ghost use Rattle.host_engine.specs.Lines.{has_ended};
ghost use Rattle.host_engine.specs.Runs.{InputTaken};

use link_io::Source;
use std::alloc::{AllocError, Global};

/// How many bytes of an input are taken into account.
pub const INPUT_LIMIT: usize = 16_777_216;

/// How many bytes of an input or a file are asked for at a time.
pub const PIECE: usize = 65_536;

/// How an input was left: it ended, it failed, or it had more bytes than the limit.
#[derive(Clone, Copy, Debug, PartialEq, Eq)]
pub enum How {
    Ended,
    Failed,
    Over,
}

impl How {
    /// Whether the input came to its end.
    pub fn has_ended(self) -> bool
        ensures { result ≡ has_ended (Some self) }
    {
        matches!(self, How::Ended)
    }
}

/// The bytes that were taken from an input, at most one more than the limit, and how it was left.
#[derive(Debug, Drop)]
pub struct Capture {
    pub bytes: Vec<u8>,
    pub how: How,
}

/// Takes an input to its end, but for what lies past the byte that shows that it is too long.
pub fn read_input<S: Source>(alloc: Global, input: &mut S) -> Result<Capture, AllocError>
    ensures taken { IfOk result (λ capture.
        InputTaken (S.seen input.old) (S.seen input.new) capture.bytes.items (Some capture.how)) }
    ensures no_memory { IfErr result (λ _. (taken : List ℕ) × (how : Option How)
        × InputTaken (S.seen input.old) (S.seen input.new) taken how) }
{
    let mut bytes = Vec::new(alloc);
    let mut buffer = [0; PIECE];
    while bytes.len() <= INPUT_LIMIT {
        let room = PIECE.min(INPUT_LIMIT + 1 - bytes.len());
        let piece = &mut buffer[..room];
        let Ok(count) = input.read(piece) else {
            let how = How::Failed;
            return Ok(Capture { bytes, how });
        };
        if count == 0 {
            let how = How::Ended;
            return Ok(Capture { bytes, how });
        }
        bytes.extend_from_slice(&piece[..count])?;
    }
    let how = How::Over;
    Ok(Capture { bytes, how })
}
