ghost use Rattle.std.specs.Prelude.{◌≡◌};
ghost use Rattle.mspec_grammar.specs.Senses.{AreWithin};
ghost use Rattle.mspec_parser.specs.Readers.{from_on, Gives, begins_with};
ghost use Rattle.mspec_parser.specs.Small.{lit_from, lit_at, quoted_lit_at, const_lit_at, key_inside, key_at, keys_at, begins_key};

use crate::lists::{Part, listed};
use crate::tokens::{begins_mark, front, mark, next, number, unexpected};
use crate::words::{LitStart, Mark, lit_start};
use mspec_grammar::Sense;
use mspec_lexer::{Symbol, Token};
use mspec_quotes::QuoteFault;
use mspec_tree::{Key, KeyList, Lit, Name};
use sqlite_items::Items;
use std::alloc::Global;

/// The literal that begins so, from the token behind its beginning on.
fn lit_from(
    text: &[u8],
    tokens: &[Token],
    at: usize,
    start: LitStart,
) -> Result<(Lit, usize), QuoteFault>
    requires { AreWithin text.now tokens.now }
    ensures { Gives text.now tokens.now result (lit_from start (from_on text.now tokens.now at)) }
{
    match start {
        LitStart::Whole(lit) => Ok((lit, at)),
        LitStart::Minus => {
            let (size, after) = number(text, tokens, at)?;
            Ok((
                Lit::Num {
                    negative: true,
                    size,
                },
                after,
            ))
        }
    }
}

#[tactic(auto, unfolding(crate::specs::Small::lit_at))]
fn lit(text: &[u8], tokens: &[Token], at: usize) -> Result<(Lit, usize), QuoteFault>
    requires { AreWithin text.now tokens.now }
    ensures { Gives text.now tokens.now result (lit_at (from_on text.now tokens.now at)) }
{
    let ((sense, _), after) = next(text, tokens, at)?;
    match lit_start(sense) {
        Some(start) => lit_from(text, tokens, after, start),
        None => Err(unexpected(at)),
    }
}

/// A literal in quotes.
#[tactic(auto, unfolding(crate::specs::Small::quoted_lit_at))]
pub fn quoted_lit(text: &[u8], tokens: &[Token], at: usize) -> Result<(Lit, usize), QuoteFault>
    requires { AreWithin text.now tokens.now }
    ensures { Gives text.now tokens.now result (quoted_lit_at (from_on text.now tokens.now at)) }
{
    let (_, at) = mark(text, tokens, at, Mark::Quote)?;
    let (lit, at) = lit(text, tokens, at)?;
    let (_, at) = mark(text, tokens, at, Mark::Quote)?;
    Ok((lit, at))
}

/// The literal of a const field, bare or in quotes.
#[tactic(auto, unfolding(crate::specs::Small::const_lit_at))]
pub fn const_lit(text: &[u8], tokens: &[Token], at: usize) -> Result<(Lit, usize), QuoteFault>
    requires { AreWithin text.now tokens.now }
    ensures { Gives text.now tokens.now result (const_lit_at (from_on text.now tokens.now at)) }
{
    if begins_mark(text, tokens, at, Mark::Quote) {
        quoted_lit(text, tokens, at)
    } else {
        lit(text, tokens, at)
    }
}

/// Literals in quotes, with commas between them.
pub struct EachLit;

impl Part for EachLit {
    type Item = Lit;

    ghost read = { quoted_lit_at };

    fn part(
        _alloc: Global,
        text: &[u8],
        tokens: &[Token],
        at: usize,
    ) -> Result<(Lit, usize), QuoteFault> {
        quoted_lit(text, tokens, at)
    }
}

/// What stands in a key's quotes, and the closing quote.
#[tactic(auto, unfolding(crate::specs::Small::key_inside))]
fn key_inside(
    alloc: Global,
    text: &[u8],
    tokens: &[Token],
    at: usize,
) -> Result<(Key, usize), QuoteFault>
    requires { AreWithin text.now tokens.now }
    ensures { Gives text.now tokens.now result (key_inside (from_on text.now tokens.now at)) }
{
    let ((sense, _), after) = next(text, tokens, at)?;
    match sense {
        Sense::Sign(Symbol::Star) => {
            let (_, after) = mark(text, tokens, after, Mark::Quote)?;
            Ok((Key::Any, after))
        }
        Sense::Name(bytes) => {
            let (_, after) = mark(text, tokens, after, Mark::Quote)?;
            Ok((Key::Constant(Name::from_slice(alloc, bytes)?), after))
        }
        other => match lit_start(other) {
            Some(start) => {
                let (lit, after) = lit_from(text, tokens, after, start)?;
                let (_, after) = mark(text, tokens, after, Mark::Quote)?;
                Ok((Key::Lit(lit), after))
            }
            None => Err(unexpected(at)),
        },
    }
}

/// A key: a star, or a literal, a name or a star in quotes.
#[tactic(auto, unfolding(crate::specs::Small::key_at))]
fn key(alloc: Global, text: &[u8], tokens: &[Token], at: usize) -> Result<(Key, usize), QuoteFault>
    requires { AreWithin text.now tokens.now }
    ensures { Gives text.now tokens.now result (key_at (from_on text.now tokens.now at)) }
{
    let ((sense, _), after) = next(text, tokens, at)?;
    match sense {
        Sense::Sign(Symbol::Star) => Ok((Key::Any, after)),
        Sense::Sign(Symbol::Quote) => key_inside(alloc, text, tokens, after),
        _ => Err(unexpected(at)),
    }
}

struct EachKey;

impl Part for EachKey {
    type Item = Key;

    ghost read = { key_at };

    fn part(
        alloc: Global,
        text: &[u8],
        tokens: &[Token],
        at: usize,
    ) -> Result<(Key, usize), QuoteFault> {
        key(alloc, text, tokens, at)
    }
}

/// Whether a key begins with this token.
fn begins_key(text: &[u8], tokens: &[Token], at: usize) -> bool
    requires { AreWithin text.now tokens.now }
    ensures { result ≡ begins_with begins_key (from_on text.now tokens.now at) }
{
    match front(text, tokens, at) {
        Some((Sense::Sign(Symbol::Star), _)) => true,
        Some((Sense::Sign(Symbol::Quote), _)) => true,
        _ => false,
    }
}

/// The keys of a case, if it has any.
#[tactic(auto, unfolding(crate::specs::Small::keys_at))]
pub fn keys(
    alloc: Global,
    text: &[u8],
    tokens: &[Token],
    at: usize,
) -> Result<(KeyList, usize), QuoteFault>
    requires { AreWithin text.now tokens.now }
    ensures { Gives text.now tokens.now result (keys_at (from_on text.now tokens.now at)) }
{
    if begins_key(text, tokens, at) {
        listed::<EachKey>(alloc, text, tokens, at)
    } else {
        Ok((Items::new(alloc), at))
    }
}
