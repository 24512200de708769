ghost use Rattle.node_tree.specs.Appends.{Appends};
ghost use Rattle.answer_texts.specs.Texts.{kind_text, outcome_text};

use crate::reasons::{append_numbered, append_pair, append_reason};
use crate::values::append_rows;
use std::alloc::AllocError;
use wire_frames::{EndKind, Outcome};

/// Adds how a request ended. An `Err` leaves a text that begins as before.
pub(crate) fn append_kind(text: &mut Vec<u8>, kind: EndKind) -> Result<(), AllocError>
    ensures { Appends result text.old.items text.new.items (kind_text kind) }
{
    match kind {
        EndKind::Done => text.extend_from_slice(b"done"),
        EndKind::Written => text.extend_from_slice(b"written"),
        EndKind::Remote(code) => append_numbered(text, b"remote ", u64::from(code)),
        EndKind::Mismatch { place, got } => {
            append_pair(text, b"mismatch ", u64::from(place), u64::from(got))
        }
        EndKind::Cancelled => text.extend_from_slice(b"cancelled"),
        EndKind::Expired => text.extend_from_slice(b"expired"),
        EndKind::LeaseGone => text.extend_from_slice(b"lease gone"),
        EndKind::Lost(reason) => {
            text.extend_from_slice(b"lost ")?;
            append_reason(text, reason)
        }
    }
}

/// Adds how a request ended, and a word for each item where it is done. An `Err` leaves a text that begins as before.
pub(crate) fn append_outcome(text: &mut Vec<u8>, outcome: &Outcome) -> Result<(), AllocError>
    ensures { Appends result text.old.items text.new.items (outcome_text outcome.now) }
{
    append_kind(text, outcome.kind)?;
    match outcome.kind {
        EndKind::Done => append_rows(text, outcome.values.as_slice()),
        _ => Ok(()),
    }
}
