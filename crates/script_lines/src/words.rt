//! The words of a line, and what they stand for.

ghost use Rattle.std.specs.Prelude.{◌≡◌, ◌≤◌, IfOk, IfSome, map, take};
ghost use Rattle.script_lines.specs.ReaderParts.{IsGivenBy, hex_of, number_of, within_of};
ghost use Rattle.script_lines.specs.Scripts.{words_of};

use crate::commands::LineFault;
use hex::FromHexError;
use node_tree::{ByteList, OwnedList};
use std::alloc::{AllocError, Global};
use std::str;

/// One more than the words of the longest command.
const MAX_WORDS: usize = 8;

/// The words of a line, or as many as show that it has more than any command.
pub fn split_words(alloc: Global, line: &[u8]) -> Result<Vec<&[u8]>, AllocError>
    ensures { IfOk result (λ words. map (λ w. w.now) words.items ≡ take 8 (words_of line.now)) }
{
    line.split(|byte| *byte == b' ')
        .take(MAX_WORDS)
        .collect(alloc)
}

/// A number of decimal digits that 64 bits hold.
pub fn read_number(word: &[u8]) -> Option<u64>
    ensures { result ≡ number_of word.now }
{
    if !word.iter().all(|byte| byte.is_ascii_digit()) {
        return None;
    }
    str::from_utf8(word).ok()?.parse::<u64>().ok()
}

#[tactic(auto, unfolding(crate::specs::ReaderParts::within_of))]
pub fn read_within(word: &[u8], low: u64, high: u64) -> Option<u64>
    ensures read { result ≡ within_of low high word.now }
    ensures within { IfSome result (λ n. (low ≤ n) × (n ≤ high)) }
{
    read_number(word).filter(|number| (low..=high).contains(number))
}

/// The bytes of one or more pairs of hexadecimal digits.
#[tactic(auto, unfolding(crate::specs::ReaderParts::hex_of))]
pub fn read_hex(alloc: Global, word: &[u8]) -> Result<ByteList, LineFault>
    ensures { IsGivenBy result (hex_of word.now) }
{
    if word.is_empty() {
        return Err(LineFault::Refused);
    }
    match hex::decode(alloc, word) {
        Ok(bytes) => Ok(OwnedList::from_vec(bytes)),
        Err(FromHexError::OutOfMemory) => Err(LineFault::NoMemory),
        Err(_) => Err(LineFault::Refused),
    }
}
