ghost use Rattle.std.specs.Prelude.{◌≡◌};
ghost use Rattle.mspec_tree.specs.Depth.{depth_limit};
ghost use Rattle.mspec_lexer.specs.Lexemes.{lexemes};
ghost use Rattle.mspec_grammar.specs.Senses.{AreWithin};
ghost use Rattle.mspec_parser.specs.Readers.{from_on, Gives};
ghost use Rattle.mspec_parser.specs.Defs.{type_from, discriminated_from, data_io_from, enum_from, def_of, def_from, def_at, defs_at, description_at, GivesAll};

use crate::fields::fields;
use crate::heads::{constants, enum_head, head};
use crate::lists::{Part, many};
use crate::switches::{members, switch};
use crate::tokens::{front, mark, next, unexpected};
use crate::types::simple;
use crate::words::{DefWord, Mark, def_word};
use mspec_grammar::Sense;
use mspec_lexer::Token;
use mspec_quotes::QuoteFault;
use mspec_tree::{ByteOrder, Def, DefBody, DefList, Description, Name, ParamList, Place};
use std::alloc::Global;

/// What stands between a definition's word and its contents.
#[derive(Drop)]
pub struct Head {
    pub named: Place,
    pub name: Name,
    pub params: ParamList,
    pub order: Option<ByteOrder>,
}

fn def_of(place: Place, head: Head, body: DefBody) -> Def
    ensures { result ≡ def_of place head body }
{
    let Head {
        named,
        name,
        params,
        order,
    } = head;
    Def {
        place,
        named,
        name,
        params,
        order,
        body,
    }
}

#[tactic(auto, unfolding(crate::specs::Defs::type_from))]
fn type_from(
    alloc: Global,
    text: &[u8],
    tokens: &[Token],
    at: usize,
    bracket: Place,
) -> Result<(Def, usize), QuoteFault>
    requires { AreWithin text.now tokens.now }
    ensures { Gives text.now tokens.now result (type_from depth_limit bracket (from_on text.now tokens.now at)) }
{
    let (head, at) = head(alloc, text, tokens, at)?;
    let (inner, at) = fields(alloc, text, tokens, at)?;
    let (_, at) = mark(text, tokens, at, Mark::RightBracket)?;
    Ok((def_of(bracket, head, DefBody::Plain(inner)), at))
}

#[tactic(auto, unfolding(crate::specs::Defs::discriminated_from))]
fn discriminated_from(
    alloc: Global,
    text: &[u8],
    tokens: &[Token],
    at: usize,
    bracket: Place,
) -> Result<(Def, usize), QuoteFault>
    requires { AreWithin text.now tokens.now }
    ensures { Gives text.now tokens.now result (discriminated_from depth_limit bracket (from_on text.now tokens.now at)) }
{
    let (head, at) = head(alloc, text, tokens, at)?;
    let (inner, at) = members(alloc, text, tokens, at)?;
    let (_, at) = mark(text, tokens, at, Mark::RightBracket)?;
    Ok((def_of(bracket, head, DefBody::Switched(inner)), at))
}

#[tactic(auto, unfolding(crate::specs::Defs::data_io_from))]
fn data_io_from(
    alloc: Global,
    text: &[u8],
    tokens: &[Token],
    at: usize,
    bracket: Place,
) -> Result<(Def, usize), QuoteFault>
    requires { AreWithin text.now tokens.now }
    ensures { Gives text.now tokens.now result (data_io_from depth_limit bracket (from_on text.now tokens.now at)) }
{
    let (head, at) = head(alloc, text, tokens, at)?;
    let (inner, at) = switch(alloc, text, tokens, at)?;
    match mark(text, tokens, at, Mark::RightBracket) {
        Ok((_, at)) => Ok((def_of(bracket, head, DefBody::DataIo(inner)), at)),
        Err(fault) => {
            // What is dropped by name is proved once, for every type.
            drop(inner);
            Err(fault)
        }
    }
}

#[tactic(auto, unfolding(crate::specs::Defs::enum_from))]
fn enum_from(
    alloc: Global,
    text: &[u8],
    tokens: &[Token],
    at: usize,
    bracket: Place,
) -> Result<(Def, usize), QuoteFault>
    requires { AreWithin text.now tokens.now }
    ensures { Gives text.now tokens.now result (enum_from bracket (from_on text.now tokens.now at)) }
{
    let (base, at) = simple(text, tokens, at)?;
    let (head, at) = enum_head(alloc, text, tokens, at)?;
    let (constants, at) = constants(alloc, text, tokens, at)?;
    let (_, at) = mark(text, tokens, at, Mark::RightBracket)?;
    Ok((def_of(bracket, head, DefBody::Enum(base, constants)), at))
}

fn def_from(
    alloc: Global,
    text: &[u8],
    tokens: &[Token],
    at: usize,
    bracket: Place,
    word: DefWord,
) -> Result<(Def, usize), QuoteFault>
    requires { AreWithin text.now tokens.now }
    ensures { Gives text.now tokens.now result (def_from depth_limit bracket word (from_on text.now tokens.now at)) }
{
    match word {
        DefWord::Type => type_from(alloc, text, tokens, at, bracket),
        DefWord::DiscriminatedType => discriminated_from(alloc, text, tokens, at, bracket),
        DefWord::DataIo => data_io_from(alloc, text, tokens, at, bracket),
        DefWord::Enum => enum_from(alloc, text, tokens, at, bracket),
    }
}

#[tactic(auto, unfolding(crate::specs::Defs::def_at))]
fn definition(
    alloc: Global,
    text: &[u8],
    tokens: &[Token],
    at: usize,
) -> Result<(Def, usize), QuoteFault>
    requires { AreWithin text.now tokens.now }
    ensures { Gives text.now tokens.now result (def_at depth_limit (from_on text.now tokens.now at)) }
{
    let (bracket, at) = mark(text, tokens, at, Mark::LeftBracket)?;
    let ((sense, _), after) = next(text, tokens, at)?;
    let Sense::Name(bytes) = sense else {
        return Err(unexpected(at));
    };
    let Some(word) = def_word(bytes) else {
        return Err(unexpected(at));
    };
    def_from(alloc, text, tokens, after, bracket, word)
}

struct EachDef;

impl Part for EachDef {
    type Item = Def;

    ghost read = { def_at depth_limit };

    fn part(
        alloc: Global,
        text: &[u8],
        tokens: &[Token],
        at: usize,
    ) -> Result<(Def, usize), QuoteFault> {
        definition(alloc, text, tokens, at)
    }
}

/// Definitions, one behind another.
#[tactic(auto, unfolding(crate::specs::Defs::defs_at))]
pub fn definitions(
    alloc: Global,
    text: &[u8],
    tokens: &[Token],
    at: usize,
) -> Result<(DefList, usize), QuoteFault>
    requires { AreWithin text.now tokens.now }
    ensures { Gives text.now tokens.now result (defs_at depth_limit (from_on text.now tokens.now at)) }
{
    many::<EachDef>(alloc, text, tokens, at, Mark::LeftBracket)
}

/// The whole description.
#[tactic(auto, unfolding(crate::specs::Defs::description_at))]
pub fn description(alloc: Global, text: &[u8], tokens: &[Token]) -> Result<Description, QuoteFault>
    requires { AreWithin text.now tokens.now }
    ensures { GivesAll text.now tokens.now result (description_at depth_limit (lexemes text.now tokens.now)) }
{
    let (defs, at) = definitions(alloc, text, tokens, 0)?;
    match front(text, tokens, at) {
        None => Ok(Description { defs }),
        Some(_) => Err(unexpected(at)),
    }
}
