//! The command that a line's words spell.

ghost use Rattle.std.specs.Prelude.{◌≡◌, map};
ghost use Rattle.script_lines.specs.ReaderParts.{IsGivenBy, ask_of, call_of, cancel_of, collect_of, command_of, frame_of, pair_of, poll_of, release_of, send_of, shutdown_of, submit_of, table_of, tick_of, within_of};

use crate::commands::{Call, Command, LineFault};
use crate::words::{read_hex, read_number, read_within};
use conn_core::Settings;
use std::alloc::Global;

/// The longest time of a lease or a wait, in milliseconds.
const MAX_LEASE_MS: u64 = 86_400_000;

/// The longest time of a request, in milliseconds.
const MAX_TIMEOUT_MS: u64 = 3_600_000;

fn read_caller(word: &[u8]) -> Option<u32>
    ensures { result ≡ within_of 1 1000 word.now }
{
    Some(read_within(word, 1, 1000)? as u32)
}

#[tactic(auto, unfolding(crate::specs::ReaderParts::table_of))]
fn read_table(words: &[&[u8]]) -> Option<Settings>
    ensures { result ≡ table_of (map (λ w. w.now) words.now) }
{
    let [references, window, share, journal, lease_ms, wait_ms] = words else {
        return None;
    };
    Some(Settings {
        references: read_within(references, 1, 65_535)? as u16,
        window: read_within(window, 1, 64)? as u8,
        share: read_within(share, 1, 64)? as u8,
        journal: read_within(journal, 64, 262_144)? as u32,
        lease_ms: read_within(lease_ms, 1, MAX_LEASE_MS)? as u32,
        wait_ms: read_within(wait_ms, 1, MAX_LEASE_MS)? as u32,
    })
}

/// A caller, and a number.
#[tactic(auto, unfolding(crate::specs::ReaderParts::pair_of))]
fn read_pair(words: &[&[u8]]) -> Option<(u32, u64)>
    ensures { result ≡ pair_of (map (λ w. w.now) words.now) }
{
    let [caller, number] = words else {
        return None;
    };
    Some((read_caller(caller)?, read_number(number)?))
}

#[tactic(auto, unfolding(crate::specs::ReaderParts::ask_of))]
fn read_ask(words: &[&[u8]]) -> Option<Call>
    ensures { result ≡ ask_of (map (λ w. w.now) words.now) }
{
    let (caller, now) = read_pair(words)?;
    Some(Call::AskLease { caller, now })
}

#[tactic(auto, unfolding(crate::specs::ReaderParts::poll_of))]
fn read_poll(words: &[&[u8]]) -> Option<Call>
    ensures { result ≡ poll_of (map (λ w. w.now) words.now) }
{
    let (caller, lease) = read_pair(words)?;
    Some(Call::PollLease { caller, lease })
}

#[tactic(auto, unfolding(crate::specs::ReaderParts::release_of))]
fn read_release(words: &[&[u8]]) -> Option<Call>
    ensures { result ≡ release_of (map (λ w. w.now) words.now) }
{
    let [caller, lease, now] = words else {
        return None;
    };
    let caller = read_caller(caller)?;
    let lease = read_number(lease)?;
    let now = read_number(now)?;
    Some(Call::Release { caller, lease, now })
}

#[tactic(auto, unfolding(crate::specs::ReaderParts::cancel_of))]
fn read_cancel(words: &[&[u8]]) -> Option<Call>
    ensures { result ≡ cancel_of (map (λ w. w.now) words.now) }
{
    let (caller, id) = read_pair(words)?;
    Some(Call::Cancel { caller, id })
}

#[tactic(auto, unfolding(crate::specs::ReaderParts::collect_of))]
fn read_collect(words: &[&[u8]]) -> Option<Call>
    ensures { result ≡ collect_of (map (λ w. w.now) words.now) }
{
    let (caller, id) = read_pair(words)?;
    Some(Call::Collect { caller, id })
}

#[tactic(auto, unfolding(crate::specs::ReaderParts::tick_of))]
fn read_tick(words: &[&[u8]]) -> Option<Call>
    ensures { result ≡ tick_of (map (λ w. w.now) words.now) }
{
    let [now] = words else {
        return None;
    };
    let now = read_number(now)?;
    Some(Call::Tick { now })
}

#[tactic(auto, unfolding(crate::specs::ReaderParts::shutdown_of))]
fn read_shutdown(words: &[&[u8]]) -> Option<Call>
    ensures { result ≡ shutdown_of (map (λ w. w.now) words.now) }
{
    let [caller] = words else {
        return None;
    };
    let caller = read_caller(caller)?;
    Some(Call::Shutdown { caller })
}

#[tactic(auto, unfolding(crate::specs::ReaderParts::send_of))]
fn read_send(words: &[&[u8]]) -> Option<Call>
    ensures { result ≡ send_of (map (λ w. w.now) words.now) }
{
    if words.is_empty() {
        Some(Call::TakeSend)
    } else {
        None
    }
}

#[tactic(auto, unfolding(crate::specs::ReaderParts::frame_of))]
fn read_frame(alloc: Global, words: &[&[u8]]) -> Result<Call, LineFault>
    ensures { IsGivenBy result (frame_of (map (λ w. w.now) words.now)) }
{
    let [bytes] = words else {
        return Err(LineFault::Refused);
    };
    let bytes = read_hex(alloc, bytes)?;
    Ok(Call::Frame { bytes })
}

#[tactic(auto, unfolding(crate::specs::ReaderParts::submit_of))]
fn read_submit(alloc: Global, words: &[&[u8]]) -> Result<Call, LineFault>
    ensures { IsGivenBy result (submit_of (map (λ w. w.now) words.now)) }
{
    let [caller, lease, now, timeout_ms, payload] = words else {
        return Err(LineFault::Refused);
    };
    let caller = read_caller(caller).ok_or(LineFault::Refused)?;
    let lease = read_number(lease).ok_or(LineFault::Refused)?;
    let now = read_number(now).ok_or(LineFault::Refused)?;
    let timeout_ms = read_within(timeout_ms, 1, MAX_TIMEOUT_MS).ok_or(LineFault::Refused)? as u32;
    let payload = read_hex(alloc, payload)?;
    Ok(Call::Submit {
        caller,
        lease,
        now,
        timeout_ms,
        payload,
    })
}

#[tactic(auto, using(crate::proofs::NameLaws::same_name), unfolding(crate::specs::ReaderParts::call_of))]
fn read_call(alloc: Global, name: &[u8], words: &[&[u8]]) -> Result<Call, LineFault>
    ensures { IsGivenBy result (call_of name.now (map (λ w. w.now) words.now)) }
{
    match name {
        b"ask" => read_ask(words).ok_or(LineFault::Refused),
        b"poll" => read_poll(words).ok_or(LineFault::Refused),
        b"release" => read_release(words).ok_or(LineFault::Refused),
        b"submit" => read_submit(alloc, words),
        b"send" => read_send(words).ok_or(LineFault::Refused),
        b"frame" => read_frame(alloc, words),
        b"cancel" => read_cancel(words).ok_or(LineFault::Refused),
        b"collect" => read_collect(words).ok_or(LineFault::Refused),
        b"tick" => read_tick(words).ok_or(LineFault::Refused),
        b"shutdown" => read_shutdown(words).ok_or(LineFault::Refused),
        _ => Err(LineFault::Refused),
    }
}

/// The command that the words of a line spell.
#[tactic(auto, unfolding(crate::specs::ReaderParts::command_of))]
pub fn read_words(alloc: Global, words: &[&[u8]]) -> Result<Command, LineFault>
    ensures { IsGivenBy result (command_of (map (λ w. w.now) words.now)) }
{
    let [name, words @ ..] = words else {
        return Err(LineFault::Refused);
    };
    if *name == b"table".as_slice() {
        let settings = read_table(words).ok_or(LineFault::Refused)?;
        return Ok(Command::Table(settings));
    }
    Ok(Command::Calls(read_call(alloc, name, words)?))
}
