ghost use Rattle.std.specs.Prelude.{ℕ, List, length};
ghost use Rattle.mspec_lexer.specs.Lexemes.{Lexeme};
ghost use Rattle.mspec_grammar.specs.Senses.{AreWithin};
ghost use Rattle.mspec_parser.specs.Readers.{Read, from_on, Gives, is_mark, many, listed};

use crate::tokens::{begins_mark, mark};
use crate::words::Mark;
use mspec_lexer::Token;
use mspec_quotes::QuoteFault;
use sqlite_items::Items;
use std::alloc::Global;

/// A part of a description, of which several may stand in a row.
pub trait Part {
    type Item: Drop;

    /// How it is read of lexemes.
    ghost read: { List Lexeme → Read Self.Item };

    /// The part that stands at a token, and the token behind it.
    fn part(
        alloc: Global,
        text: &[u8],
        tokens: &[Token],
        at: usize,
    ) -> Result<(Self::Item, usize), QuoteFault>
        requires { AreWithin text.now tokens.now }
        ensures { Gives text.now tokens.now result (read (from_on text.now tokens.now at)) };
}

/// Parts, one behind another, as long as the next token is this symbol, with which each begins.
pub fn many<P: Part>(
    alloc: Global,
    text: &[u8],
    tokens: &[Token],
    at: usize,
    first: Mark,
) -> Result<(Items<P::Item>, usize), QuoteFault>
    requires { AreWithin text.now tokens.now }
    ensures { let xs = from_on text.now tokens.now at in Gives text.now tokens.now result (many (is_mark first) P.read (length xs) xs) }
{
    let mut parts = Items::new(alloc);
    let mut next = at;
    'parts: for _ in at..tokens.len() {
        if !begins_mark(text, tokens, next, first) {
            return Ok((parts, next));
        }
        let (part, after) = P::part(alloc, text, tokens, next)?;
        parts.push(part)?;
        next = after;
    }
    Ok((parts, next))
}

/// Parts with commas between them, one at least.
#[tactic(auto, unfolding(crate::specs::Readers::listed))]
pub fn listed<P: Part>(
    alloc: Global,
    text: &[u8],
    tokens: &[Token],
    at: usize,
) -> Result<(Items<P::Item>, usize), QuoteFault>
    requires { AreWithin text.now tokens.now }
    ensures { Gives text.now tokens.now result (listed P.read (from_on text.now tokens.now at)) }
{
    let (first, mut next) = P::part(alloc, text, tokens, at)?;
    let mut parts = Items::new(alloc);
    parts.push(first)?;
    'parts: for _ in next..tokens.len() {
        if !begins_mark(text, tokens, next, Mark::Comma) {
            return Ok((parts, next));
        }
        let (_, behind) = mark(text, tokens, next, Mark::Comma)?;
        let (part, after) = P::part(alloc, text, tokens, behind)?;
        parts.push(part)?;
        next = after;
    }
    Ok((parts, next))
}
