ghost use Rattle.std.specs.Prelude.{◌≡◌, ◌<◌, ◌≤◌, ◌↔◌, ◌++◌, [], Some, length, take, drop, IsErr, IfOk, OnErr};
ghost use Rattle.link_io.specs.Memory.{NextFails, read_count, after_read, after_failed_read};

use crate::calls::Calls;
use crate::counts::Count;
use crate::pieces::copy_front;
use crate::traits::{Failed, Source};
use std::marker::Model;

/// Bytes in memory that are read as a stream. It can be made to give them in small pieces, and to fail at
/// the calls whose numbers, from 1, are in a list.
#[derive(Debug, Drop)]
pub struct MemSource {
    bytes: Vec<u8>,
    at: usize,
    piece: usize,
    calls: Calls,
    faults: Count,
    ends: Count,
}

impl Model for MemSource {
    ghost use Rattle.std.specs.Prelude.{◌<◌, ◌≤◌, take, drop, vec_len};
    ghost use Rattle.link_io.specs.Memory.{SourceState};

    ghost Value = { SourceState };

    ghost view = { λ source. record {
      tape = record {
        given = take source.at source.bytes.items;
        left = drop source.at source.bytes.items;
      };
      piece = source.piece;
      calls = source.calls;
      faults = source.faults;
      ends = source.ends;
    } };

    ghost invariant = { λ source. (source.at ≤ vec_len source.bytes) × (0 < source.piece) };
}

impl MemSource {
    /// A source that gives each read as many bytes as there is room for.
    pub fn new(bytes: Vec<u8>, fails: Vec<u64>) -> MemSource
        ensures tape { result.tape ≡ record { given = []; left = bytes.items } }
        ensures piece { result.piece ≡ usize.MAX }
        ensures calls { result.calls ≡ record { made = 0; failing = fails.items } }
        ensures counts { (result.faults ≡ 0) × (result.ends ≡ 0) }
    {
        MemSource {
            bytes,
            at: 0,
            piece: usize::MAX,
            calls: Calls::new(fails),
            faults: Count::new(),
            ends: Count::new(),
        }
    }

    /// The same source, of which no read gives more than so many bytes.
    pub fn in_pieces(self, most: usize) -> MemSource
        requires { 0 < most }
        ensures { result ≡ record self { piece = most } }
    {
        let mut source = self;
        source.piece = most;
        source
    }

    /// How often a read has failed.
    pub fn faults(&self) -> u64
        ensures { result ≡ self.now.faults }
    {
        self.faults.get()
    }

    /// How often a read has met the end.
    pub fn ends(&self) -> u64
        ensures { result ≡ self.now.ends }
    {
        self.ends.get()
    }

    /// The bytes that were not read yet.
    pub fn left(&self) -> &[u8]
        ensures { result.now ≡ self.now.tape.left }
    {
        &self.bytes[self.at..]
    }
}

impl Source for MemSource {
    ghost seen = { λ source. record { tape = Some source.tape; ends = source.ends; faults = source.faults } };

    fn read(&mut self, to: &mut [u8]) -> Result<usize, Failed>
        requires { 0 < length to.old }
        ensures fails { IsErr result ↔ NextFails self.old.calls }
        ensures how_many { IfOk result (λ n. n ≡ read_count self.old (length to.old)) }
        ensures taken { IfOk result (λ n. to.new ≡ take n self.old.tape.left ++ drop n to.old) }
        ensures ok { IfOk result (λ n. self.new ≡ after_read self.old n) }
        ensures err { OnErr result (self.new ≡ after_failed_read self.old) }
        ensures untouched { OnErr result (to.new ≡ to.old) }
        ensures at_end { result ≡ Ok 0 → self.old.tape.left ≡ [] }
        ensures ends_grow { self.old.ends ≤ self.new.ends }
        ensures faults_grow { self.old.faults ≤ self.new.faults }
    {
        if self.calls.next_fails() {
            self.faults.rise();
            return Err(Failed);
        }
        let count = copy_front(to, &self.bytes[self.at..], self.piece);
        self.at += count;
        if count == 0 {
            self.ends.rise();
        }
        Ok(count)
    }
}
