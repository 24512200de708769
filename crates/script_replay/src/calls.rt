//! The calls of a script on its connection.

ghost use Rattle.std.specs.Prelude.{◌≡◌, ◌≤◌, MatchResult};
ghost use Rattle.conn_core.specs.Journals.{timeout_limit};
ghost use Rattle.script_replay.specs.Replays.{after_call, after_command, answer_text, command_text};
ghost use Rattle.script_replay.specs.ReplyTexts.{spelled, spelled_line};
ghost use Rattle.script_replay.specs.Timed.{HasTimeout, IsInRanges, IsLegal, IsLegalIfAny};
ghost use Rattle.script_lines.specs.declared.commands.Call.TheVariants as calls;

use crate::replies::Reply;
use conn_core::{AskRefusal, ConnState, FrameRefusal, SubmitRefusal};
use node_tree::ByteList;
use script_lines::{Call, Command};
use std::alloc::{AllocError, Global};
use wire_frames::{Ask, RawWire};

/// A connection of the raw wire.
type Conn = ConnState<RawWire>;

fn answer_ask(conn: &mut Conn, caller: u32, now: u64) -> Result<Reply, AllocError>
    ensures { MatchResult result
        (λ reply. (spelled reply ≡ answer_text conn.old (calls.AskLease caller now))
        × (conn.new ≡ after_call conn.old (calls.AskLease caller now)))
        (λ _. conn.new ≡ conn.old) }
{
    match conn.ask_lease(caller, now) {
        Err(AskRefusal::NoMemory) => Err(AllocError),
        answer => Ok(Reply::Asked(answer)),
    }
}

fn answer_poll(conn: &Conn, caller: u32, lease: u64) -> Reply
    requires { IsLegal conn.now }
    ensures { spelled result ≡ answer_text conn.now (calls.PollLease caller lease) }
{
    Reply::Polled(conn.poll_lease(caller, lease))
}

fn answer_submit(
    conn: &mut Conn,
    caller: u32,
    lease: u64,
    now: u64,
    timeout_ms: u32,
    payload: ByteList,
) -> Result<Reply, AllocError>
    requires { (1 ≤ timeout_ms) × (timeout_ms ≤ timeout_limit) }
    ensures { MatchResult result
        (λ reply. (spelled reply ≡ answer_text conn.old (calls.Submit caller lease now timeout_ms payload))
        × (conn.new ≡ after_call conn.old (calls.Submit caller lease now timeout_ms payload)))
        (λ _. conn.new ≡ conn.old) }
{
    let ask = Ask::Raw(payload);
    if !conn.admits(&ask) {
        return Ok(Reply::NotAdmitted);
    }
    match conn.submit(caller, lease, ask, timeout_ms, now) {
        Err(SubmitRefusal::NoMemory) => Err(AllocError),
        answer => Ok(Reply::Submitted(answer)),
    }
}

fn answer_frame(conn: &mut Conn, bytes: ByteList) -> Result<Reply, AllocError>
    ensures { MatchResult result
        (λ reply. (spelled reply ≡ answer_text conn.old (calls.Frame bytes))
        × (conn.new ≡ after_call conn.old (calls.Frame bytes)))
        (λ _. conn.new ≡ conn.old) }
{
    match conn.apply_frame(0, bytes) {
        Err(FrameRefusal::NoMemory) => Err(AllocError),
        answer => Ok(Reply::Received(answer)),
    }
}

/// Makes a call on a connection: a row for each command. Want of memory leaves the connection as it was.
fn answer_call(conn: &mut Conn, call: Call) -> Result<Reply, AllocError>
    requires timeout { HasTimeout call }
    requires legal { IsLegal conn.old }
    ensures { MatchResult result
        (λ reply. (spelled reply ≡ answer_text conn.old call) × (conn.new ≡ after_call conn.old call))
        (λ _. conn.new ≡ conn.old) }
{
    let reply = match call {
        Call::AskLease { caller, now } => answer_ask(conn, caller, now)?,
        Call::PollLease { caller, lease } => answer_poll(conn, caller, lease),
        Call::Release { caller, lease, now } => Reply::Released(conn.release(caller, lease, now)),
        Call::Submit {
            caller,
            lease,
            now,
            timeout_ms,
            payload,
        } => answer_submit(conn, caller, lease, now, timeout_ms, payload)?,
        Call::TakeSend => Reply::Sent(conn.take_send(0)),
        Call::Frame { bytes } => answer_frame(conn, bytes)?,
        Call::Cancel { caller, id } => Reply::Cancelled(conn.cancel(caller, id)),
        Call::Collect { caller, id } => Reply::Collected(conn.collect(caller, id)),
        Call::Tick { now } => Reply::Ticks(conn.tick(0, now)),
        Call::Shutdown { caller } => Reply::Stopped(conn.shutdown(caller)),
    };
    Ok(reply)
}

/// Runs a command, which makes the connection or is a call on it, and gives the reply, if it has one. Want of memory leaves
/// the connection as it was.
pub(crate) fn run_command(
    alloc: Global,
    conn: &mut Option<Conn>,
    command: Command,
) -> Result<Option<Reply>, AllocError>
    requires ranges { IsInRanges command }
    requires legal { IsLegalIfAny conn.old }
    ensures { MatchResult result
        (λ reply. (spelled_line reply ≡ command_text conn.old command) × (conn.new ≡ after_command conn.old command))
        (λ _. conn.new ≡ conn.old) }
{
    match command {
        Command::Table(settings) => {
            *conn = Some(ConnState::new(alloc, RawWire, settings)?);
            Ok(None)
        }
        Command::Calls(call) => match conn {
            Some(conn) => Ok(Some(answer_call(conn, call)?)),
            None => Ok(None),
        },
    }
}
