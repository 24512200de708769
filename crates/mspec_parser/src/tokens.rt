ghost use Rattle.std.specs.Prelude.{◌≡◌, ◌+◌, ◌<◌, length, IfSome};
ghost use Rattle.mspec_grammar.specs.Senses.{AreWithin};
ghost use Rattle.mspec_parser.specs.Readers.{from_on, front_of, behind, seen, seen_front, Gives, GivesBy, next_at, mark_at, word_at, name_at, number_at, begins_with, is_mark, is_word};

use crate::words::{Mark, is_mark, is_word};
use mspec_grammar::{ParseWhy, Sense, sense_of};
use mspec_lexer::Token;
use mspec_quotes::QuoteFault;
use mspec_tree::{Name, Place};
use std::alloc::Global;

/// The sense and the place of a token, if there is one.
pub fn front<'a>(text: &'a [u8], tokens: &[Token], at: usize) -> Option<(Sense<'a>, Place)>
    requires { AreWithin text.now tokens.now }
    ensures front { seen_front result ≡ front_of (from_on text.now tokens.now at) }
    ensures behind { from_on text.now tokens.now (at + 1) ≡ behind (from_on text.now tokens.now at) }
    ensures within { IfSome result (λ _. at < length tokens.now) }
{
    match tokens.get(at) {
        None => None,
        Some(token) => Some((sense_of(text, token), token.place)),
    }
}

/// The sense and the place of a token.
#[tactic(auto, unfolding(crate::specs::Readers::next_at))]
pub fn next<'a>(
    text: &'a [u8],
    tokens: &[Token],
    at: usize,
) -> Result<((Sense<'a>, Place), usize), QuoteFault>
    requires { AreWithin text.now tokens.now }
    ensures { GivesBy seen text.now tokens.now result (next_at (from_on text.now tokens.now at)) }
{
    match front(text, tokens, at) {
        None => Err(QuoteFault::At {
            index: at,
            why: ParseWhy::EndOfText,
        }),
        Some(found) => Ok((found, at + 1)),
    }
}

/// That no text of the grammar goes on with a token.
pub fn unexpected(at: usize) -> QuoteFault
    ensures { result ≡ QuoteFault.At at ParseWhy.Unexpected }
{
    QuoteFault::At {
        index: at,
        why: ParseWhy::Unexpected,
    }
}

/// That a token is a word that is left out.
pub fn left_out(at: usize) -> QuoteFault
    ensures { result ≡ QuoteFault.At at ParseWhy.LeftOut }
{
    QuoteFault::At {
        index: at,
        why: ParseWhy::LeftOut,
    }
}

/// Whether a token is this symbol.
pub fn begins_mark(text: &[u8], tokens: &[Token], at: usize, mark: Mark) -> bool
    requires { AreWithin text.now tokens.now }
    ensures { result ≡ begins_with (is_mark mark) (from_on text.now tokens.now at) }
{
    match front(text, tokens, at) {
        None => false,
        Some((sense, _)) => is_mark(mark, sense),
    }
}

/// Whether a token is this word.
pub fn begins_word(text: &[u8], tokens: &[Token], at: usize, word: &[u8]) -> bool
    requires { AreWithin text.now tokens.now }
    ensures { result ≡ begins_with (is_word word.now) (from_on text.now tokens.now at) }
{
    match front(text, tokens, at) {
        None => false,
        Some((sense, _)) => is_word(word, sense),
    }
}

/// The place of this symbol.
#[tactic(auto, unfolding(crate::specs::Readers::mark_at))]
pub fn mark(
    text: &[u8],
    tokens: &[Token],
    at: usize,
    mark: Mark,
) -> Result<(Place, usize), QuoteFault>
    requires { AreWithin text.now tokens.now }
    ensures { Gives text.now tokens.now result (mark_at mark (from_on text.now tokens.now at)) }
{
    let ((sense, place), after) = next(text, tokens, at)?;
    if is_mark(mark, sense) {
        Ok((place, after))
    } else {
        Err(unexpected(at))
    }
}

/// The place of this word.
#[tactic(auto, unfolding(crate::specs::Readers::word_at))]
pub fn word(
    text: &[u8],
    tokens: &[Token],
    at: usize,
    word: &[u8],
) -> Result<(Place, usize), QuoteFault>
    requires { AreWithin text.now tokens.now }
    ensures { Gives text.now tokens.now result (word_at word.now (from_on text.now tokens.now at)) }
{
    let ((sense, place), after) = next(text, tokens, at)?;
    if is_word(word, sense) {
        Ok((place, after))
    } else {
        Err(unexpected(at))
    }
}

/// A name and its place.
#[tactic(auto, unfolding(crate::specs::Readers::name_at))]
pub fn name(
    alloc: Global,
    text: &[u8],
    tokens: &[Token],
    at: usize,
) -> Result<((Name, Place), usize), QuoteFault>
    requires { AreWithin text.now tokens.now }
    ensures { Gives text.now tokens.now result (name_at (from_on text.now tokens.now at)) }
{
    let ((sense, place), after) = next(text, tokens, at)?;
    match sense {
        Sense::Name(bytes) => Ok(((Name::from_slice(alloc, bytes)?, place), after)),
        _ => Err(unexpected(at)),
    }
}

#[tactic(auto, unfolding(crate::specs::Readers::number_at))]
pub fn number(text: &[u8], tokens: &[Token], at: usize) -> Result<(u128, usize), QuoteFault>
    requires { AreWithin text.now tokens.now }
    ensures { Gives text.now tokens.now result (number_at (from_on text.now tokens.now at)) }
{
    let ((sense, _), after) = next(text, tokens, at)?;
    match sense {
        Sense::Number(number) => Ok((number, after)),
        _ => Err(unexpected(at)),
    }
}
