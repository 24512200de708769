ghost use Rattle.std.specs.Prelude.{◌++◌, codes};
ghost use Rattle.node_tree.specs.Appends.{Appends, AppendsOrKeeps};
ghost use Rattle.script_replay.specs.ReplyTexts.{spelled, spelled_line};

use answer_texts::{
    add_asked, add_cancelled, add_collected, add_polled, add_received, add_released, add_sent,
    add_stopped, add_submitted, add_ticked,
};
use conn_core::{
    Accepted, AskRefusal, CancelRefusal, FrameAnswer, FrameRefusal, LeaseAnswer, LeaseRefusal,
    LeaseState, SendRefusal, Sending, SubmitRefusal, TakeRefusal, Ticked,
};
use std::alloc::AllocError;
use wire_frames::{Outcome, Reason};

/// What a call of a script came to, before it is spelled.
#[derive(Drop)]
pub(crate) enum Reply {
    Asked(Result<LeaseAnswer, AskRefusal>),
    Polled(Result<LeaseState, LeaseRefusal>),
    Released(Result<(), LeaseRefusal>),
    NotAdmitted,
    Submitted(Result<Accepted, SubmitRefusal>),
    Sent(Result<Sending, SendRefusal>),
    Received(Result<FrameAnswer, FrameRefusal>),
    Cancelled(Result<(), CancelRefusal>),
    Collected(Result<Outcome, TakeRefusal>),
    Ticks(Ticked),
    Stopped(Result<(), Reason>),
}

fn add_text(text: &mut Vec<u8>, reply: &Reply) -> Result<(), AllocError>
    ensures { AppendsOrKeeps result text.old.items text.new.items (spelled reply.now) }
{
    match reply {
        Reply::Asked(answer) => add_asked(text, answer),
        Reply::Polled(answer) => add_polled(text, answer),
        Reply::Released(answer) => add_released(text, answer),
        Reply::NotAdmitted => text.extend_from_slice(b"not admitted"),
        Reply::Submitted(answer) => add_submitted(text, answer),
        Reply::Sent(answer) => add_sent(text, answer),
        Reply::Received(answer) => add_received(text, answer),
        Reply::Cancelled(answer) => add_cancelled(text, answer),
        Reply::Collected(answer) => add_collected(text, answer),
        Reply::Ticks(ticked) => add_ticked(text, *ticked),
        Reply::Stopped(answer) => add_stopped(text, answer),
    }
}

/// Adds the text of a reply and a line feed. An `Err` leaves a text that begins as before.
fn add_text_line(text: &mut Vec<u8>, reply: &Reply) -> Result<(), AllocError>
    ensures { Appends result text.old.items text.new.items (spelled reply.now ++ codes "\n") }
{
    add_text(text, reply)?;
    text.extend_from_slice(b"\n")
}

/// Adds the line of a reply, if there is one. An `Err` changes nothing.
pub(crate) fn add_line(text: &mut Vec<u8>, reply: &Option<Reply>) -> Result<(), AllocError>
    ensures { AppendsOrKeeps result text.old.items text.new.items (spelled_line reply.now) }
{
    let Some(reply) = reply else {
        return Ok(());
    };
    let before = text.len();
    let added = add_text_line(text, reply);
    if added.is_err() {
        text.truncate(before);
    }
    added
}
