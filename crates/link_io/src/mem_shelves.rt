ghost use Rattle.std.specs.Prelude.{◌≡◌, ◌<◌, ◌≤◌, ◌↔◌, ◌++◌, ℕ, List, map, length, take, drop, min, ◌-◌, replicate, slice_index, slice_set, IsErr, IfOk, IfSome, OnOk, OnErr};
ghost use Rattle.std.specs.Option.{option_map};
ghost use Rattle.std.specs.String.{string_bytes};
ghost use Rattle.link_io.specs.Counts.{Rose, next};
ghost use Rattle.link_io.specs.Memory.{place_of, file_of, faults_of, ReadFails, after_call, after_failed_read_of};

use crate::calls::Calls;
use crate::counts::Count;
use crate::pieces::{copy_front, rest_from};
use crate::traits::{Failed, Shelf};
use std::marker::Model;

const PLACES: usize = 256;

/// Files in memory, each a name with its bytes; of two with one name the first counts. A read of a name
/// without a file fails, and so do the calls whose numbers, from 1, are in a list.
///
/// A count for each name that may be asked for would take memory, which a call that fails may not find. So
/// a shelf has 256 counts, and the sum of a name's bytes says which is the name's.
#[derive(Debug, Drop)]
pub struct MemShelf {
    files: Vec<(String, Vec<u8>)>,
    piece: usize,
    calls: Calls,
    counts: [Count; PLACES],
}

impl Model for MemShelf {
    ghost use Rattle.std.specs.Prelude.{◌<◌, map};
    ghost use Rattle.std.specs.String.{string_bytes};
    ghost use Rattle.link_io.specs.Memory.{ShelfState};

    ghost Value = { ShelfState };

    ghost view = { λ shelf. record {
      files = map (λ file. (string_bytes file.0, file.1.items)) shelf.files.items;
      piece = shelf.piece;
      calls = shelf.calls;
      counts = shelf.counts;
    } };

    ghost invariant = { λ shelf. 0 < shelf.piece };
}

impl MemShelf {
    pub fn new(files: Vec<(String, Vec<u8>)>, fails: Vec<u64>) -> MemShelf
        ensures files { result.files ≡ map (λ file. (string_bytes file.0, file.1.items)) files.items }
        ensures piece { result.piece ≡ usize.MAX }
        ensures calls { result.calls ≡ record { made = 0; failing = fails.items } }
        ensures counts { (name : List ℕ) → faults_of result name ≡ 0 }
    {
        MemShelf {
            files,
            piece: usize::MAX,
            calls: Calls::new(fails),
            counts: fresh_counts(),
        }
    }

    /// The same shelf, of which no read gives more than so many bytes.
    pub fn in_pieces(self, most: usize) -> MemShelf
        requires { 0 < most }
        ensures { result ≡ record self { piece = most } }
    {
        let mut shelf = self;
        shelf.piece = most;
        shelf
    }

    /// How often a read that gave this name, or one that is counted with it, has failed.
    pub fn faults(&self, name: &str) -> u64
        ensures { result ≡ faults_of self.now name.now }
    {
        self.counts[place(name)].get()
    }
}

impl Shelf for MemShelf {
    ghost use Rattle.std.specs.Prelude.{ℕ, is_none};
    ghost use Rattle.std.proofs.Common.{ap};
    ghost use Rattle.link_io.specs.Memory.{none_where_lacking};

    ghost seen = { λ shelf. record {
      file = file_of shelf.files;
      lacks = λ name. is_none (file_of shelf.files name);
      faults = faults_of shelf;
    } };

    ghost counts_with = { λ one other. place_of one ≡ place_of other };

    ghost share_a_count = { λ shelf one other together. ap (λ (place : ℕ). slice_index shelf.counts place) together };

    ghost lacks_no_file = { λ shelf name lacks. none_where_lacking (file_of shelf.files name) lacks };

    fn read_at(&mut self, name: &str, from: u64, to: &mut [u8]) -> Result<usize, Failed>
        requires { 0 < length to.old }
        ensures fails { IsErr result ↔ ReadFails self.old name.now }
        ensures how_many { IfOk result (λ n. IfSome (file_of self.old.files name.now) (λ bytes.
            n ≡ min (length to.old) (min (length bytes - from) self.old.piece))) }
        ensures taken { IfOk result (λ n. IfSome (file_of self.old.files name.now) (λ bytes.
            to.new ≡ take n (drop from bytes) ++ drop n to.old)) }
        ensures ok { OnOk result (self.new ≡ record self.old { calls = after_call self.old.calls }) }
        ensures err { OnErr result (self.new ≡ after_failed_read_of self.old name.now) }
        ensures untouched { OnErr result (to.new ≡ to.old) }
        ensures at_end { result ≡ Ok 0
            → IfSome (file_of self.old.files name.now) (λ bytes. length bytes ≤ from) }
        ensures failed { OnErr result (Rose (faults_of self.old name.now) (faults_of self.new name.now)) }
        ensures others { (other : List ℕ) → (place_of name.now ≡ place_of other → ⊥)
            → faults_of self.new other ≡ faults_of self.old other }
        ensures faults_grow { (other : List ℕ) → faults_of self.old other ≤ faults_of self.new other }
    {
        if self.calls.next_fails() {
            raise(&mut self.counts, name);
            return Err(Failed);
        }
        match bytes_of(self.files.as_slice(), name) {
            Some(bytes) => Ok(copy_front(to, rest_from(bytes, from), self.piece)),
            None => {
                raise(&mut self.counts, name);
                Err(Failed)
            }
        }
    }
}

/// Raises the count of a name.
fn raise(counts: &mut [Count; PLACES], name: &str)
    ensures raised { let at = place_of name.now in
        counts.new ≡ slice_set counts.old at (next (slice_index counts.old at)) }
    ensures rose { let at = place_of name.now in
        Rose (slice_index counts.old at) (slice_index counts.new at) }
    ensures grows { let at = place_of name.now in
        slice_index counts.old at ≤ slice_index counts.new at }
{
    let count = &mut counts[place(name)];
    count.rise();
}

/// Counts of which none has risen.
fn fresh_counts() -> [Count; PLACES]
    ensures { result ≡ replicate PLACES 0 }
{
    [Count::new(); PLACES]
}

/// The bytes of the first file of this name.
fn bytes_of<'a>(files: &'a [(String, Vec<u8>)], name: &str) -> Option<&'a [u8]>
    ensures { option_map (λ bytes. bytes.now) result
        ≡ file_of (map (λ file. (string_bytes file.0, file.1.items)) files.now) name.now }
{
    for file in files {
        if file.0.as_str() == name {
            return Some(file.1.as_slice());
        }
    }
    None
}

/// The place of a name's count.
fn place(name: &str) -> usize
    ensures value { result ≡ place_of name.now }
    ensures in_range { result < PLACES }
{
    let mut sum = 0u8;
    for byte in name.as_bytes() {
        sum = sum.wrapping_add(*byte);
    }
    usize::from(sum)
}
