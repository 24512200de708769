ghost use Rattle.std.specs.Prelude.{◌≡◌, ◌<◌, ◌≤◌, ◌↔◌, [], Some, length, take, IsErr, IfOk, OnOk, OnErr};
ghost use Rattle.link_io.specs.Memory.{NextFails, write_count, after_write, after_failed_call, after_call};

use crate::calls::Calls;
use crate::counts::Count;
use crate::traits::{Failed, Sink};
use std::alloc::{AllocError, Global};
use std::marker::Model;

/// A stream that keeps in memory what is put, so many bytes at most. It can be made to take them in small
/// pieces, and to fail at the calls whose numbers, from 1, are in a list. Writes and flushes are numbered
/// together.
#[derive(Debug, Drop)]
pub struct MemSink {
    held: Vec<u8>,
    room: usize,
    piece: usize,
    calls: Calls,
    faults: Count,
}

impl Model for MemSink {
    ghost use Rattle.std.specs.Prelude.{◌<◌, ◌≤◌, vec_len};
    ghost use Rattle.std.specs.Vec.{vec_capacity};
    ghost use Rattle.link_io.specs.Memory.{SinkState};

    ghost Value = { SinkState };

    ghost view = { λ sink. record {
      held = sink.held.items;
      room = sink.room;
      piece = sink.piece;
      calls = sink.calls;
      faults = sink.faults;
    } };

    ghost invariant = { λ sink. (vec_len sink.held ≤ sink.room) × (sink.room ≤ vec_capacity sink.held) × (0 < sink.piece) };
}

impl MemSink {
    /// A sink that holds at most so many bytes, for which it takes the room. Where it holds them, a write
    /// answers 0.
    pub fn new(alloc: Global, room: usize, fails: Vec<u64>) -> Result<MemSink, AllocError>
        ensures held { IfOk result (λ sink. sink.held ≡ []) }
        ensures limits { IfOk result (λ sink. (sink.room ≡ room) × (sink.piece ≡ usize.MAX)) }
        ensures calls { IfOk result (λ sink. sink.calls ≡ record { made = 0; failing = fails.items }) }
        ensures faults { IfOk result (λ sink. sink.faults ≡ 0) }
    {
        Ok(MemSink {
            held: Vec::with_capacity(alloc, room)?,
            room,
            piece: usize::MAX,
            calls: Calls::new(fails),
            faults: Count::new(),
        })
    }

    /// The same sink, of which no write takes more than so many bytes.
    pub fn in_pieces(self, most: usize) -> MemSink
        requires { 0 < most }
        ensures { result ≡ record self { piece = most } }
    {
        let mut sink = self;
        sink.piece = most;
        sink
    }

    /// The bytes that were put.
    pub fn bytes(&self) -> &[u8]
        ensures { result.now ≡ self.now.held }
    {
        self.held.as_slice()
    }

    /// How often a call has failed or a write has taken no byte.
    pub fn faults(&self) -> u64
        ensures { result ≡ self.now.faults }
    {
        self.faults.get()
    }
}

impl Sink for MemSink {
    ghost seen = { λ sink. record { held = Some sink.held; faults = sink.faults } };

    fn write(&mut self, from: &[u8]) -> Result<usize, Failed>
        requires { 0 < length from.now }
        ensures fails { IsErr result ↔ NextFails self.old.calls }
        ensures how_many { IfOk result (λ n. n ≡ write_count self.old (length from.now)) }
        ensures ok { IfOk result (λ n. self.new ≡ after_write self.old (take n from.now)) }
        ensures err { OnErr result (self.new ≡ after_failed_call self.old) }
        ensures faults_grow { self.old.faults ≤ self.new.faults }
    {
        if self.calls.next_fails() {
            self.faults.rise();
            return Err(Failed);
        }
        let count = from.len().min(self.room - self.held.len()).min(self.piece);
        self.held.extend_from_slice(&from[..count]).unwrap();
        if count == 0 {
            self.faults.rise();
        }
        Ok(count)
    }

    fn flush(&mut self) -> Result<(), Failed>
        ensures fails { IsErr result ↔ NextFails self.old.calls }
        ensures ok { OnOk result (self.new ≡ record self.old { calls = after_call self.old.calls }) }
        ensures err { OnErr result (self.new ≡ after_failed_call self.old) }
        ensures faults_grow { self.old.faults ≤ self.new.faults }
    {
        if self.calls.next_fails() {
            self.faults.rise();
            return Err(Failed);
        }
        Ok(())
    }
}
