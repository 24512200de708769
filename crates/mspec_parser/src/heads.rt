ghost use Rattle.std.specs.Prelude.{codes};
ghost use Rattle.mspec_grammar.specs.Senses.{AreWithin};
ghost use Rattle.mspec_parser.specs.Readers.{from_on, Gives};
ghost use Rattle.mspec_parser.specs.Small.{param_at, params_inside, params_at, order_inside, order_at, attributes_inside, attributes_at, constant_at};
ghost use Rattle.mspec_parser.specs.Defs.{head_at, enum_head_at, constants_at};

use crate::definitions::Head;
use crate::lists::{Part, listed, many};
use crate::literals::{EachLit, quoted_lit};
use crate::tokens::{begins_mark, begins_word, mark, name, next, unexpected, word};
use crate::types::kind;
use crate::words::{Mark, order_word};
use mspec_grammar::Sense;
use mspec_lexer::Token;
use mspec_quotes::QuoteFault;
use mspec_tree::{ByteOrder, Constant, ConstantList, LitList, Param, ParamList};
use sqlite_items::Items;
use std::alloc::Global;

#[tactic(auto, unfolding(crate::specs::Small::param_at))]
fn param(
    alloc: Global,
    text: &[u8],
    tokens: &[Token],
    at: usize,
) -> Result<(Param, usize), QuoteFault>
    requires { AreWithin text.now tokens.now }
    ensures { Gives text.now tokens.now result (param_at (from_on text.now tokens.now at)) }
{
    let (kind, at) = kind(alloc, text, tokens, at)?;
    let ((name, place), at) = name(alloc, text, tokens, at)?;
    Ok((Param { place, kind, name }, at))
}

struct EachParam;

impl Part for EachParam {
    type Item = Param;

    ghost read = { param_at };

    fn part(
        alloc: Global,
        text: &[u8],
        tokens: &[Token],
        at: usize,
    ) -> Result<(Param, usize), QuoteFault> {
        param(alloc, text, tokens, at)
    }
}

#[tactic(auto, unfolding(crate::specs::Small::params_inside))]
fn params_inside(
    alloc: Global,
    text: &[u8],
    tokens: &[Token],
    at: usize,
) -> Result<(ParamList, usize), QuoteFault>
    requires { AreWithin text.now tokens.now }
    ensures { Gives text.now tokens.now result (params_inside (from_on text.now tokens.now at)) }
{
    let (_, at) = mark(text, tokens, at, Mark::LeftParenthesis)?;
    let (params, at) = listed::<EachParam>(alloc, text, tokens, at)?;
    let (_, at) = mark(text, tokens, at, Mark::RightParenthesis)?;
    Ok((params, at))
}

/// The parameters in parentheses, if there are any.
#[tactic(auto, unfolding(crate::specs::Small::params_at))]
fn params(
    alloc: Global,
    text: &[u8],
    tokens: &[Token],
    at: usize,
) -> Result<(ParamList, usize), QuoteFault>
    requires { AreWithin text.now tokens.now }
    ensures { Gives text.now tokens.now result (params_at (from_on text.now tokens.now at)) }
{
    if begins_mark(text, tokens, at, Mark::LeftParenthesis) {
        params_inside(alloc, text, tokens, at)
    } else {
        Ok((Items::new(alloc), at))
    }
}

/// A byte order, from the token of its name on.
#[tactic(auto, unfolding(crate::specs::Small::order_inside))]
fn order_inside(
    text: &[u8],
    tokens: &[Token],
    at: usize,
) -> Result<(Option<ByteOrder>, usize), QuoteFault>
    requires { AreWithin text.now tokens.now }
    ensures { Gives text.now tokens.now result (order_inside (from_on text.now tokens.now at)) }
{
    let (_, at) = word(text, tokens, at, b"byteOrder")?;
    let (_, at) = mark(text, tokens, at, Mark::Equal)?;
    let (_, at) = mark(text, tokens, at, Mark::Quote)?;
    let ((sense, _), after) = next(text, tokens, at)?;
    let Sense::Name(bytes) = sense else {
        return Err(unexpected(at));
    };
    let Some(order) = order_word(bytes) else {
        return Err(unexpected(at));
    };
    let (_, after) = mark(text, tokens, after, Mark::Quote)?;
    Ok((Some(order), after))
}

/// The byte order, if there is one.
#[tactic(auto, unfolding(crate::specs::Small::order_at))]
pub fn order(
    text: &[u8],
    tokens: &[Token],
    at: usize,
) -> Result<(Option<ByteOrder>, usize), QuoteFault>
    requires { AreWithin text.now tokens.now }
    ensures { Gives text.now tokens.now result (order_at (from_on text.now tokens.now at)) }
{
    if begins_word(text, tokens, at, b"byteOrder") {
        order_inside(text, tokens, at)
    } else {
        Ok((None, at))
    }
}

/// A definition's name, parameters and byte order.
#[tactic(auto, unfolding(crate::specs::Defs::head_at))]
pub fn head(
    alloc: Global,
    text: &[u8],
    tokens: &[Token],
    at: usize,
) -> Result<(Head, usize), QuoteFault>
    requires { AreWithin text.now tokens.now }
    ensures { Gives text.now tokens.now result (head_at (from_on text.now tokens.now at)) }
{
    let ((name, named), at) = name(alloc, text, tokens, at)?;
    let (params, at) = params(alloc, text, tokens, at)?;
    let (order, at) = order(text, tokens, at)?;
    Ok((
        Head {
            named,
            name,
            params,
            order,
        },
        at,
    ))
}

/// An enum's name and parameters.
#[tactic(auto, unfolding(crate::specs::Defs::enum_head_at))]
pub fn enum_head(
    alloc: Global,
    text: &[u8],
    tokens: &[Token],
    at: usize,
) -> Result<(Head, usize), QuoteFault>
    requires { AreWithin text.now tokens.now }
    ensures { Gives text.now tokens.now result (enum_head_at (from_on text.now tokens.now at)) }
{
    let ((name, named), at) = name(alloc, text, tokens, at)?;
    let (params, at) = params(alloc, text, tokens, at)?;
    Ok((
        Head {
            named,
            name,
            params,
            order: None,
        },
        at,
    ))
}

#[tactic(auto, unfolding(crate::specs::Small::attributes_inside))]
fn attributes_inside(
    alloc: Global,
    text: &[u8],
    tokens: &[Token],
    at: usize,
) -> Result<(LitList, usize), QuoteFault>
    requires { AreWithin text.now tokens.now }
    ensures { Gives text.now tokens.now result (attributes_inside (from_on text.now tokens.now at)) }
{
    let (_, at) = mark(text, tokens, at, Mark::LeftBracket)?;
    let (attrs, at) = listed::<EachLit>(alloc, text, tokens, at)?;
    let (_, at) = mark(text, tokens, at, Mark::RightBracket)?;
    Ok((attrs, at))
}

/// A constant's attributes in brackets, if there are any.
#[tactic(auto, unfolding(crate::specs::Small::attributes_at))]
fn attributes(
    alloc: Global,
    text: &[u8],
    tokens: &[Token],
    at: usize,
) -> Result<(LitList, usize), QuoteFault>
    requires { AreWithin text.now tokens.now }
    ensures { Gives text.now tokens.now result (attributes_at (from_on text.now tokens.now at)) }
{
    if begins_mark(text, tokens, at, Mark::LeftBracket) {
        attributes_inside(alloc, text, tokens, at)
    } else {
        Ok((Items::new(alloc), at))
    }
}

#[tactic(auto, unfolding(crate::specs::Small::constant_at))]
fn constant(
    alloc: Global,
    text: &[u8],
    tokens: &[Token],
    at: usize,
) -> Result<(Constant, usize), QuoteFault>
    requires { AreWithin text.now tokens.now }
    ensures { Gives text.now tokens.now result (constant_at (from_on text.now tokens.now at)) }
{
    let (_, at) = mark(text, tokens, at, Mark::LeftBracket)?;
    let (value, at) = quoted_lit(text, tokens, at)?;
    let ((name, place), at) = name(alloc, text, tokens, at)?;
    let (attrs, at) = attributes(alloc, text, tokens, at)?;
    let (_, at) = mark(text, tokens, at, Mark::RightBracket)?;
    Ok((
        Constant {
            place,
            value,
            name,
            attrs,
        },
        at,
    ))
}

struct EachConstant;

impl Part for EachConstant {
    type Item = Constant;

    ghost read = { constant_at };

    fn part(
        alloc: Global,
        text: &[u8],
        tokens: &[Token],
        at: usize,
    ) -> Result<(Constant, usize), QuoteFault> {
        constant(alloc, text, tokens, at)
    }
}

/// The constants of an enum.
#[tactic(auto, unfolding(crate::specs::Defs::constants_at))]
pub fn constants(
    alloc: Global,
    text: &[u8],
    tokens: &[Token],
    at: usize,
) -> Result<(ConstantList, usize), QuoteFault>
    requires { AreWithin text.now tokens.now }
    ensures { Gives text.now tokens.now result (constants_at (from_on text.now tokens.now at)) }
{
    many::<EachConstant>(alloc, text, tokens, at, Mark::LeftBracket)
}
