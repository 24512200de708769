ghost use Rattle.std.specs.Prelude.{◌≡◌, ℕ, List, length};
ghost use Rattle.node_tree.specs.Appends.{Appends, AppendsOrKeeps};
ghost use Rattle.answer_texts.specs.Answers.{asked_text, polled_text, released_text, submitted_text, sent_text, received_text, cancelled_text, collected_text, ticked_text, stopped_text};
ghost use Rattle.answer_texts.specs.Texts.{outcome_text};

use crate::answers::{
    append_asked, append_cancelled, append_collected, append_polled, append_received,
    append_released, append_sent, append_stopped, append_submitted, append_ticked,
};
use crate::outcomes::append_outcome;
use conn_core::{
    Accepted, AskRefusal, CancelRefusal, FrameAnswer, FrameRefusal, LeaseAnswer, LeaseRefusal,
    LeaseState, SendRefusal, Sending, SubmitRefusal, TakeRefusal, Ticked,
};
use std::alloc::AllocError;
use wire_frames::{Outcome, Reason};

/// Adds a text that is appended part by part, or none of it where a part finds no memory.
fn add_whole<F: FnOnce(&mut Vec<u8>) -> Result<(), AllocError>>(
    text: &mut Vec<u8>,
    addition: F,
) -> Result<(), AllocError>
    requires { F.IsAlwaysCallable addition }
    // The words are those that the addition appends to whatever text it is shown.
    ensures { (words : List ℕ)
        → ((shown left : _) (added : _) → F.post addition shown added left → Appends added shown.now.items left.now.items words)
        → AppendsOrKeeps result text.old.items text.new.items words }
{
    let before = text.len();
    let added = addition(text);
    if added.is_err() {
        text.truncate(before);
    }
    added
}

/// Adds what a caller that asked for a lease is told. An `Err` changes nothing.
pub fn add_asked(
    text: &mut Vec<u8>,
    answer: &Result<LeaseAnswer, AskRefusal>,
) -> Result<(), AllocError>
    ensures { AppendsOrKeeps result text.old.items text.new.items (asked_text answer.now) }
{
    add_whole(text, |text| append_asked(text, answer))
}

/// Adds what a caller that polled a lease is told. An `Err` changes nothing.
pub fn add_polled(
    text: &mut Vec<u8>,
    answer: &Result<LeaseState, LeaseRefusal>,
) -> Result<(), AllocError>
    ensures { AppendsOrKeeps result text.old.items text.new.items (polled_text answer.now) }
{
    add_whole(text, |text| append_polled(text, answer))
}

/// Adds what a caller that gave back a lease is told. An `Err` changes nothing.
pub fn add_released(text: &mut Vec<u8>, answer: &Result<(), LeaseRefusal>) -> Result<(), AllocError>
    ensures { AppendsOrKeeps result text.old.items text.new.items (released_text answer.now) }
{
    add_whole(text, |text| append_released(text, answer))
}

/// Adds what a caller that handed in a request is told. An `Err` changes nothing.
pub fn add_submitted(
    text: &mut Vec<u8>,
    answer: &Result<Accepted, SubmitRefusal>,
) -> Result<(), AllocError>
    ensures { AppendsOrKeeps result text.old.items text.new.items (submitted_text answer.now) }
{
    add_whole(text, |text| append_submitted(text, answer))
}

/// Adds what is said of the next frame to write. An `Err` changes nothing.
pub fn add_sent(text: &mut Vec<u8>, answer: &Result<Sending, SendRefusal>) -> Result<(), AllocError>
    ensures { AppendsOrKeeps result text.old.items text.new.items (sent_text answer.now) }
{
    add_whole(text, |text| append_sent(text, answer))
}

/// Adds what a frame that came did. An `Err` changes nothing.
pub fn add_received(
    text: &mut Vec<u8>,
    answer: &Result<FrameAnswer, FrameRefusal>,
) -> Result<(), AllocError>
    ensures { AppendsOrKeeps result text.old.items text.new.items (received_text answer.now) }
{
    add_whole(text, |text| append_received(text, answer))
}

/// Adds what a caller that cancelled a request is told. An `Err` changes nothing.
pub fn add_cancelled(
    text: &mut Vec<u8>,
    answer: &Result<(), CancelRefusal>,
) -> Result<(), AllocError>
    ensures { AppendsOrKeeps result text.old.items text.new.items (cancelled_text answer.now) }
{
    add_whole(text, |text| append_cancelled(text, answer))
}

/// Adds what a caller that collects a request is told. An `Err` changes nothing.
pub fn add_collected(
    text: &mut Vec<u8>,
    answer: &Result<Outcome, TakeRefusal>,
) -> Result<(), AllocError>
    ensures { AppendsOrKeeps result text.old.items text.new.items (collected_text answer.now) }
{
    add_whole(text, |text| append_collected(text, answer))
}

/// Adds how many requests, leases and waiters a moment ended. An `Err` changes nothing.
pub fn add_ticked(text: &mut Vec<u8>, ticked: Ticked) -> Result<(), AllocError>
    ensures { AppendsOrKeeps result text.old.items text.new.items (ticked_text ticked) }
{
    add_whole(text, |text| append_ticked(text, ticked))
}

/// Adds what a caller that asked for the connection's end is told. An `Err` changes nothing.
pub fn add_stopped(text: &mut Vec<u8>, answer: &Result<(), Reason>) -> Result<(), AllocError>
    ensures { AppendsOrKeeps result text.old.items text.new.items (stopped_text answer.now) }
{
    add_whole(text, |text| append_stopped(text, answer))
}

/// Adds what a caller that waited for its request is told: how it ended, and a word for each item where it is done. An
/// `Err` changes nothing.
pub fn add_outcome(text: &mut Vec<u8>, outcome: &Outcome) -> Result<(), AllocError>
    ensures { AppendsOrKeeps result text.old.items text.new.items (outcome_text outcome.now) }
{
    add_whole(text, |text| append_outcome(text, outcome))
}
