ghost use Rattle.std.specs.Prelude.{◌≡◌};
ghost use Rattle.mspec_tree.specs.Depth.{depth_limit};
ghost use Rattle.mspec_grammar.specs.Parts.{width};
ghost use Rattle.mspec_grammar.specs.Senses.{AreWithin};
ghost use Rattle.mspec_quotes.specs.Machine.{read_quoted};
ghost use Rattle.mspec_parser.specs.Readers.{from_on, Gives};
ghost use Rattle.mspec_parser.specs.Small.{is_type_word, simple_from, simple_at, kind_at, args_inside, args_at, ref_at};

use crate::lists::{Part, listed};
use crate::tokens::{begins_mark, left_out, mark, next, number, unexpected};
use crate::words::{Mark, is_left_out_type};
use mspec_grammar::{Sense, Word};
use mspec_lexer::Token;
use mspec_quotes::{QuoteFault, quoted};
use mspec_tree::{Expr, ExprList, Name, Ref, Simple};
use sqlite_items::Items;
use std::alloc::Global;

/// The width that a number stands for; one above 255 stands for 255, which is no width either.
fn width(number: u128) -> u8
    ensures { result ≡ width number }
{
    if number < 256 { number as u8 } else { 255 }
}

fn is_type_word(word: Word) -> bool
    ensures { result ≡ is_type_word word }
{
    match word {
        Word::Bit | Word::Byte | Word::Uint | Word::Int | Word::Float => true,
        _ => false,
    }
}

/// The type that begins with this word, from the token behind it on.
fn simple_from(
    text: &[u8],
    tokens: &[Token],
    at: usize,
    word: Word,
) -> Result<(Simple, usize), QuoteFault>
    requires { AreWithin text.now tokens.now }
    ensures { Gives text.now tokens.now result (simple_from word (from_on text.now tokens.now at)) }
{
    match word {
        Word::Byte => Ok((Simple::Byte, at)),
        Word::Uint => {
            let (bits, after) = number(text, tokens, at)?;
            Ok((Simple::Uint(width(bits)), after))
        }
        Word::Int => {
            let (bits, after) = number(text, tokens, at)?;
            Ok((Simple::Int(width(bits)), after))
        }
        Word::Float => {
            let (bits, after) = number(text, tokens, at)?;
            Ok((Simple::Float(width(bits)), after))
        }
        _ => Ok((Simple::Bit, at)),
    }
}

/// A type with a word of its own.
#[tactic(auto, unfolding(crate::specs::Small::simple_at))]
pub fn simple(text: &[u8], tokens: &[Token], at: usize) -> Result<(Simple, usize), QuoteFault>
    requires { AreWithin text.now tokens.now }
    ensures { Gives text.now tokens.now result (simple_at (from_on text.now tokens.now at)) }
{
    let ((sense, _), after) = next(text, tokens, at)?;
    match sense {
        Sense::Taken(word) if is_type_word(word) => simple_from(text, tokens, after, word),
        Sense::Name(bytes) if is_left_out_type(bytes) => Err(left_out(at)),
        _ => Err(unexpected(at)),
    }
}

/// A type without arguments.
#[tactic(auto, unfolding(crate::specs::Small::kind_at))]
pub fn kind(
    alloc: Global,
    text: &[u8],
    tokens: &[Token],
    at: usize,
) -> Result<(Ref, usize), QuoteFault>
    requires { AreWithin text.now tokens.now }
    ensures { Gives text.now tokens.now result (kind_at (from_on text.now tokens.now at)) }
{
    let ((sense, place), after) = next(text, tokens, at)?;
    match sense {
        Sense::Taken(word) if is_type_word(word) => {
            let (written, after) = simple_from(text, tokens, after, word)?;
            Ok((Ref::Plain(written), after))
        }
        Sense::Name(bytes) if is_left_out_type(bytes) => Err(left_out(at)),
        Sense::Name(bytes) => {
            let name = Name::from_slice(alloc, bytes)?;
            let args = Items::new(alloc);
            Ok((Ref::Named { place, name, args }, after))
        }
        _ => Err(unexpected(at)),
    }
}

/// An expression in quotes.
pub fn expression(
    alloc: Global,
    text: &[u8],
    tokens: &[Token],
    at: usize,
) -> Result<(Expr, usize), QuoteFault>
    requires { AreWithin text.now tokens.now }
    ensures { Gives text.now tokens.now result (read_quoted depth_limit (from_on text.now tokens.now at)) }
{
    if at <= tokens.len() {
        quoted(alloc, text, tokens, at)
    } else {
        quoted(alloc, text, tokens, tokens.len())
    }
}

/// Expressions in quotes, with commas between them.
struct EachArgument;

impl Part for EachArgument {
    type Item = Expr;

    ghost read = { read_quoted depth_limit };

    fn part(
        alloc: Global,
        text: &[u8],
        tokens: &[Token],
        at: usize,
    ) -> Result<(Expr, usize), QuoteFault> {
        expression(alloc, text, tokens, at)
    }
}

#[tactic(auto, unfolding(crate::specs::Small::args_inside))]
fn args_inside(
    alloc: Global,
    text: &[u8],
    tokens: &[Token],
    at: usize,
) -> Result<(ExprList, usize), QuoteFault>
    requires { AreWithin text.now tokens.now }
    ensures { Gives text.now tokens.now result (args_inside depth_limit (from_on text.now tokens.now at)) }
{
    let (_, at) = mark(text, tokens, at, Mark::LeftParenthesis)?;
    let (args, at) = listed::<EachArgument>(alloc, text, tokens, at)?;
    let (_, at) = mark(text, tokens, at, Mark::RightParenthesis)?;
    Ok((args, at))
}

/// The arguments in parentheses, if there are any.
#[tactic(auto, unfolding(crate::specs::Small::args_at))]
fn args(
    alloc: Global,
    text: &[u8],
    tokens: &[Token],
    at: usize,
) -> Result<(ExprList, usize), QuoteFault>
    requires { AreWithin text.now tokens.now }
    ensures { Gives text.now tokens.now result (args_at depth_limit (from_on text.now tokens.now at)) }
{
    if begins_mark(text, tokens, at, Mark::LeftParenthesis) {
        args_inside(alloc, text, tokens, at)
    } else {
        Ok((Items::new(alloc), at))
    }
}

/// A type, with its arguments if there are any.
#[tactic(auto, unfolding(crate::specs::Small::ref_at))]
pub fn reference(
    alloc: Global,
    text: &[u8],
    tokens: &[Token],
    at: usize,
) -> Result<(Ref, usize), QuoteFault>
    requires { AreWithin text.now tokens.now }
    ensures { Gives text.now tokens.now result (ref_at depth_limit (from_on text.now tokens.now at)) }
{
    let ((sense, place), after) = next(text, tokens, at)?;
    match sense {
        Sense::Taken(word) if is_type_word(word) => {
            let (written, after) = simple_from(text, tokens, after, word)?;
            Ok((Ref::Plain(written), after))
        }
        Sense::Name(bytes) if is_left_out_type(bytes) => Err(left_out(at)),
        Sense::Name(bytes) => {
            let name = Name::from_slice(alloc, bytes)?;
            let (args, after) = args(alloc, text, tokens, after)?;
            Ok((Ref::Named { place, name, args }, after))
        }
        _ => Err(unexpected(at)),
    }
}
