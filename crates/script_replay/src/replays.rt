ghost use Rattle.std.specs.Prelude.{◌≡◌, ◌⊎◌, ◌++◌, None, Err, OnOk, MatchResult};
ghost use Rattle.script_lines.specs.Scripts.{IsLine};
ghost use Rattle.script_lines.specs.declared.commands.Command.{Command};
ghost use Rattle.script_replay.specs.Replays.{after_line, command_text, entries, in_64_bits};
ghost use Rattle.script_replay.specs.ReplyTexts.{spelled_line};
ghost use Rattle.script_replay.specs.Timed.{IsInRanges, IsLegalIfAny};

use crate::calls::run_command;
use crate::replies::{Reply, add_line};
use conn_core::ConnState;
use script_lines::{Command, LineFault, read_command};
use std::alloc::{AllocError, Global};
use std::marker::Model;
use wire_frames::RawWire;

/// How a script's lines end, as the program that runs them through a [`Replay`] tells it: all were answered, the next one
/// would be line `next`, and the journal has so many entries; or a line is refused.
#[derive(Clone, Copy, Debug, PartialEq, Eq)]
pub enum ScriptEnd {
    Answered { next: u64, entries: u64 },
    Refused { line: u64 },
}

/// A script that is run line by line: the number of its next line, from 1, and the connection that its first line makes. The
/// number stands still at the end of 64 bits.
#[derive(Drop)]
pub struct Replay {
    alloc: Global,
    next: u64,
    conn: Option<ConnState<RawWire>>,
}

impl Model for Replay {
    ghost use Rattle.script_replay.specs.Replays.{Position};
    ghost use Rattle.script_replay.specs.Timed.{IsLegalIfAny};

    ghost Value = { Position };

    ghost view = { λ r. record { next = r.next; conn = r.conn } };

    ghost invariant = { λ r. IsLegalIfAny r.conn };
}

impl Replay {
    /// A script of which no line was read.
    pub fn new(alloc: Global) -> Replay
        ensures { result ≡ record { next = 1; conn = None } }
    {
        Replay {
            alloc,
            next: 1,
            conn: None,
        }
    }

    /// The number of the next line.
    pub fn next_number(&self) -> u64
        ensures { result ≡ self.now.next }
    {
        self.next
    }

    /// How many entries the connection's journal has, which is legal; 0 where there is no connection yet.
    pub fn entries(&self) -> u64
        ensures entries { result ≡ entries self.now.conn }
        ensures legal { IsLegalIfAny self.now.conn }
    {
        match &self.conn {
            Some(conn) => conn.journal().len() as u64,
            None => 0,
        }
    }

    /// Takes the next line, without its end, and adds its answer to a text. A line that is refused changes nothing. Want
    /// of memory leaves the text as it was; either nothing else was changed, or the line was run and counted and only its
    /// answer is missing from the text.
    pub fn take_line(&mut self, line: &[u8], text: &mut Vec<u8>) -> Result<(), LineFault>
        ensures answered { OnOk result ((command : Command) × IsLine self.old.next line.now command
            × (text.new.items ≡ text.old.items ++ command_text self.old.conn command)
            × (self.new ≡ in_64_bits (after_line self.old command))) }
        ensures refused { result ≡ Err LineFault.Refused → ((command : Command) → IsLine self.old.next line.now command → ⊥)
            × (text.new.items ≡ text.old.items) × (self.new ≡ self.old) }
        ensures no_memory { result ≡ Err LineFault.NoMemory → (text.new.items ≡ text.old.items)
            × ((self.new ≡ self.old) ⊎ ((command : Command) × IsLine self.old.next line.now command × (self.new ≡ in_64_bits (after_line self.old command)))) }
    {
        let command = read_command(self.alloc, self.next, line)?;
        let reply = self.run(command)?;
        add_line(text, &reply)?;
        Ok(())
    }

    /// Runs a command and counts its line, and gives the reply, if it has one. Want of memory changes nothing.
    fn run(&mut self, command: Command) -> Result<Option<Reply>, AllocError>
        requires { IsInRanges command }
        ensures { MatchResult result
            (λ reply. (spelled_line reply ≡ command_text self.old.conn command) × (self.new ≡ in_64_bits (after_line self.old command)))
            (λ _. self.new ≡ self.old) }
    {
        let reply = run_command(self.alloc, &mut self.conn, command)?;
        self.next = self.next.saturating_add(1);
        Ok(reply)
    }
}
