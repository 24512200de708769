ghost use Rattle.std.specs.Prelude.{Ok, Err};
ghost use Rattle.node_tree.specs.Appends.{Appends};
ghost use Rattle.answer_texts.specs.Answers.{asked_text, polled_text, released_text, submitted_text, sent_text, received_text, cancelled_text, collected_text, ticked_text, stopped_text, closed_text};

use crate::outcomes::{append_kind, append_outcome};
use crate::reasons::{
    append_numbered, append_pair, append_reason, append_spaced, append_undecodable, write_why_text,
};
use crate::values::{append_hex, append_number};
use conn_core::{
    Accepted, AskRefusal, CancelRefusal, FrameAnswer, FrameRefusal, LeaseAnswer, LeaseRefusal,
    LeaseState, SendRefusal, Sending, SubmitRefusal, TakeRefusal, Ticked,
};
use std::alloc::AllocError;
use wire_frames::{Outcome, Reason};

fn append_closed(text: &mut Vec<u8>, reason: Reason) -> Result<(), AllocError>
    ensures { Appends result text.old.items text.new.items (closed_text reason) }
{
    text.extend_from_slice(b"closed ")?;
    append_reason(text, reason)
}

/// Adds what a caller that asked for a lease is told. An `Err` leaves a text that begins as before.
pub(crate) fn append_asked(
    text: &mut Vec<u8>,
    answer: &Result<LeaseAnswer, AskRefusal>,
) -> Result<(), AllocError>
    ensures { Appends result text.old.items text.new.items (asked_text answer.now) }
{
    match answer {
        Ok(LeaseAnswer::Granted { lease }) => append_numbered(text, b"granted ", *lease),
        Ok(LeaseAnswer::Waiting { lease, place }) => {
            append_pair(text, b"waiting ", *lease, u64::from(*place))
        }
        Err(AskRefusal::Closed(reason)) => append_closed(text, *reason),
        Err(AskRefusal::QueueFull) => text.extend_from_slice(b"queue full"),
        Err(AskRefusal::NoMemory) => text.extend_from_slice(b"no memory"),
    }
}

/// Adds what a caller that polled a lease is told. An `Err` leaves a text that begins as before.
pub(crate) fn append_polled(
    text: &mut Vec<u8>,
    answer: &Result<LeaseState, LeaseRefusal>,
) -> Result<(), AllocError>
    ensures { Appends result text.old.items text.new.items (polled_text answer.now) }
{
    match answer {
        Ok(LeaseState::Held) => text.extend_from_slice(b"held"),
        Ok(LeaseState::Waiting { place }) => append_numbered(text, b"waiting ", u64::from(*place)),
        Err(LeaseRefusal::Closed(reason)) => append_closed(text, *reason),
        Err(LeaseRefusal::NoLease) => text.extend_from_slice(b"no lease"),
    }
}

/// Adds what a caller that gave back a lease is told. An `Err` leaves a text that begins as before.
pub(crate) fn append_released(
    text: &mut Vec<u8>,
    answer: &Result<(), LeaseRefusal>,
) -> Result<(), AllocError>
    ensures { Appends result text.old.items text.new.items (released_text answer.now) }
{
    match answer {
        Ok(()) => text.extend_from_slice(b"released"),
        Err(LeaseRefusal::Closed(reason)) => append_closed(text, *reason),
        Err(LeaseRefusal::NoLease) => text.extend_from_slice(b"no lease"),
    }
}

fn append_refusal(text: &mut Vec<u8>, refusal: SubmitRefusal) -> Result<(), AllocError>
    ensures { Appends result text.old.items text.new.items (submitted_text (Err refusal)) }
{
    match refusal {
        SubmitRefusal::Closed(reason) => append_closed(text, reason),
        SubmitRefusal::NoLease => text.extend_from_slice(b"no lease"),
        SubmitRefusal::TableFull => text.extend_from_slice(b"table full"),
        SubmitRefusal::Unwritable { why, .. } => {
            text.extend_from_slice(b"unwritable ")?;
            text.extend_from_slice(write_why_text(why))
        }
        SubmitRefusal::TooLarge { size, limit } => {
            append_pair(text, b"too large ", u64::from(size), u64::from(limit))
        }
        SubmitRefusal::NoReference => text.extend_from_slice(b"no reference"),
        SubmitRefusal::NoMemory => text.extend_from_slice(b"no memory"),
    }
}

/// Adds what a caller that handed in a request is told. An `Err` leaves a text that begins as before.
pub(crate) fn append_submitted(
    text: &mut Vec<u8>,
    answer: &Result<Accepted, SubmitRefusal>,
) -> Result<(), AllocError>
    ensures { Appends result text.old.items text.new.items (submitted_text answer.now) }
{
    match answer {
        Ok(accepted) => {
            append_pair(
                text,
                b"started ",
                accepted.id,
                u64::from(accepted.reference),
            )
        }
        Err(refusal) => append_refusal(text, *refusal),
    }
}

/// Adds what is said of the next frame to write. An `Err` leaves a text that begins as before.
pub(crate) fn append_sent(
    text: &mut Vec<u8>,
    answer: &Result<Sending, SendRefusal>,
) -> Result<(), AllocError>
    ensures { Appends result text.old.items text.new.items (sent_text answer.now) }
{
    match answer {
        Ok(sending) => {
            append_spaced(text, b"sent ", sending.id)?;
            append_hex(text, sending.frame.as_slice())
        }
        Err(SendRefusal::Closed(reason)) => append_closed(text, *reason),
        Err(SendRefusal::Nothing) => text.extend_from_slice(b"nothing"),
    }
}

fn append_effect(text: &mut Vec<u8>, answer: FrameAnswer) -> Result<(), AllocError>
    ensures { Appends result text.old.items text.new.items (received_text (Ok answer)) }
{
    match answer {
        FrameAnswer::Ended { id, kind } => {
            append_spaced(text, b"ended ", id)?;
            append_kind(text, kind)
        }
        FrameAnswer::Late { reference } => append_numbered(text, b"late ", u64::from(reference)),
        FrameAnswer::Stray { reference } => append_numbered(text, b"stray ", u64::from(reference)),
        FrameAnswer::Undecodable { index, why } => append_undecodable(text, index, why),
    }
}

/// Adds what a frame that came did. An `Err` leaves a text that begins as before.
pub(crate) fn append_received(
    text: &mut Vec<u8>,
    answer: &Result<FrameAnswer, FrameRefusal>,
) -> Result<(), AllocError>
    ensures { Appends result text.old.items text.new.items (received_text answer.now) }
{
    match answer {
        Ok(answer) => append_effect(text, *answer),
        Err(FrameRefusal::Closed(reason)) => append_closed(text, *reason),
        Err(FrameRefusal::NoMemory) => text.extend_from_slice(b"no memory"),
    }
}

/// Adds what a caller that cancelled a request is told. An `Err` leaves a text that begins as before.
pub(crate) fn append_cancelled(
    text: &mut Vec<u8>,
    answer: &Result<(), CancelRefusal>,
) -> Result<(), AllocError>
    ensures { Appends result text.old.items text.new.items (cancelled_text answer.now) }
{
    match answer {
        Ok(()) => text.extend_from_slice(b"cancelled"),
        Err(CancelRefusal::AlreadyEnded(kind)) => {
            text.extend_from_slice(b"ended ")?;
            append_kind(text, *kind)
        }
        Err(CancelRefusal::NoRequest) => text.extend_from_slice(b"no request"),
    }
}

/// Adds what a caller that collects a request is told. An `Err` leaves a text that begins as before.
pub(crate) fn append_collected(
    text: &mut Vec<u8>,
    answer: &Result<Outcome, TakeRefusal>,
) -> Result<(), AllocError>
    ensures { Appends result text.old.items text.new.items (collected_text answer.now) }
{
    match answer {
        Ok(outcome) => append_outcome(text, outcome),
        Err(TakeRefusal::Pending) => text.extend_from_slice(b"pending"),
        Err(TakeRefusal::NoRequest) => text.extend_from_slice(b"no request"),
    }
}

/// Adds how many requests, leases and waiters a moment ended. An `Err` leaves a text that begins as before.
pub(crate) fn append_ticked(text: &mut Vec<u8>, ticked: Ticked) -> Result<(), AllocError>
    ensures { Appends result text.old.items text.new.items (ticked_text ticked) }
{
    append_pair(
        text,
        b"ticked ",
        u64::from(ticked.rows),
        u64::from(ticked.leases),
    )?;
    text.extend_from_slice(b" ")?;
    append_number(text, u64::from(ticked.waiters))
}

/// Adds what a caller that asked for the end is told. An `Err` leaves a text that begins as before.
pub(crate) fn append_stopped(
    text: &mut Vec<u8>,
    answer: &Result<(), Reason>,
) -> Result<(), AllocError>
    ensures { Appends result text.old.items text.new.items (stopped_text answer.now) }
{
    match answer {
        Ok(()) => text.extend_from_slice(b"stopping"),
        Err(reason) => append_closed(text, *reason),
    }
}
