ghost use Rattle.std.specs.Prelude.{◌≡◌};
ghost use Rattle.mspec_tree.specs.Depth.{depth_limit};
ghost use Rattle.mspec_grammar.specs.Senses.{AreWithin, sensed};
ghost use Rattle.mspec_parser.specs.Readers.{from_on, Gives};
ghost use Rattle.mspec_parser.specs.Fields.{case_at, cases_at, bare_name_at, switch_from, switch_at, member_at, members_at};

use crate::fields::{field_from, field_start, fields};
use crate::lists::{Part, listed, many};
use crate::literals::keys;
use crate::tokens::{mark, name, next, word};
use crate::words::{Mark, is_word};
use mspec_lexer::Token;
use mspec_quotes::QuoteFault;
use mspec_tree::{Body, Case, CaseList, Field, FieldList, Name, Place};
use sqlite_items::Items;
use std::alloc::Global;

#[tactic(auto, unfolding(crate::specs::Fields::case_at))]
fn case(
    alloc: Global,
    text: &[u8],
    tokens: &[Token],
    at: usize,
) -> Result<(Case, usize), QuoteFault>
    requires { AreWithin text.now tokens.now }
    ensures { Gives text.now tokens.now result (case_at depth_limit (from_on text.now tokens.now at)) }
{
    let (place, at) = mark(text, tokens, at, Mark::LeftBracket)?;
    let (keys, at) = keys(alloc, text, tokens, at)?;
    let ((name, named), at) = name(alloc, text, tokens, at)?;
    let (fields, at) = fields(alloc, text, tokens, at)?;
    let (_, at) = mark(text, tokens, at, Mark::RightBracket)?;
    Ok((
        Case {
            place,
            named,
            keys,
            name,
            fields,
        },
        at,
    ))
}

struct EachCase;

impl Part for EachCase {
    type Item = Case;

    ghost read = { case_at depth_limit };

    fn part(
        alloc: Global,
        text: &[u8],
        tokens: &[Token],
        at: usize,
    ) -> Result<(Case, usize), QuoteFault> {
        case(alloc, text, tokens, at)
    }
}

#[tactic(auto, unfolding(crate::specs::Fields::cases_at))]
fn cases(
    alloc: Global,
    text: &[u8],
    tokens: &[Token],
    at: usize,
) -> Result<(CaseList, usize), QuoteFault>
    requires { AreWithin text.now tokens.now }
    ensures { Gives text.now tokens.now result (cases_at depth_limit (from_on text.now tokens.now at)) }
{
    many::<EachCase>(alloc, text, tokens, at, Mark::LeftBracket)
}

struct EachName;

impl Part for EachName {
    type Item = Name;

    ghost read = { bare_name_at };

    fn part(
        alloc: Global,
        text: &[u8],
        tokens: &[Token],
        at: usize,
    ) -> Result<(Name, usize), QuoteFault> {
        let ((name, _), at) = name(alloc, text, tokens, at)?;
        Ok((name, at))
    }
}

/// What stands behind a switch's word.
#[tactic(auto, unfolding(crate::specs::Fields::switch_from))]
fn switch_from(
    alloc: Global,
    text: &[u8],
    tokens: &[Token],
    at: usize,
    bracket: Place,
) -> Result<(Field, usize), QuoteFault>
    requires { AreWithin text.now tokens.now }
    ensures { Gives text.now tokens.now result (switch_from depth_limit bracket (from_on text.now tokens.now at)) }
{
    let (names, at) = listed::<EachName>(alloc, text, tokens, at)?;
    let (cases, at) = cases(alloc, text, tokens, at)?;
    let (_, at) = mark(text, tokens, at, Mark::RightBracket)?;
    Ok((
        Field {
            place: bracket,
            named: bracket,
            name: Items::new(alloc),
            order: None,
            body: Body::Switch(names, cases),
        },
        at,
    ))
}

/// A switch.
#[tactic(auto, unfolding(crate::specs::Fields::switch_at))]
pub fn switch(
    alloc: Global,
    text: &[u8],
    tokens: &[Token],
    at: usize,
) -> Result<(Field, usize), QuoteFault>
    requires { AreWithin text.now tokens.now }
    ensures { Gives text.now tokens.now result (switch_at depth_limit (from_on text.now tokens.now at)) }
{
    let (bracket, at) = mark(text, tokens, at, Mark::LeftBracket)?;
    let (_, at) = word(text, tokens, at, b"typeSwitch")?;
    switch_from(alloc, text, tokens, at, bracket)
}

/// A field or a switch.
#[tactic(auto, unfolding(crate::specs::Fields::member_at))]
fn member(
    alloc: Global,
    text: &[u8],
    tokens: &[Token],
    at: usize,
) -> Result<(Field, usize), QuoteFault>
    requires { AreWithin text.now tokens.now }
    ensures { Gives text.now tokens.now result (member_at depth_limit (from_on text.now tokens.now at)) }
{
    let (bracket, at) = mark(text, tokens, at, Mark::LeftBracket)?;
    let ((sense, _), after) = next(text, tokens, at)?;
    if is_word(b"typeSwitch", sense) {
        return switch_from(alloc, text, tokens, after, bracket);
    }
    let word = match field_start(sense) {
        Ok(word) => word,
        Err(why) => return Err(QuoteFault::At { index: at, why }),
    };
    field_from(alloc, text, tokens, after, bracket, word)
}

struct EachMember;

impl Part for EachMember {
    type Item = Field;

    ghost read = { member_at depth_limit };

    fn part(
        alloc: Global,
        text: &[u8],
        tokens: &[Token],
        at: usize,
    ) -> Result<(Field, usize), QuoteFault> {
        member(alloc, text, tokens, at)
    }
}

/// Fields and switches, one behind another.
#[tactic(auto, unfolding(crate::specs::Fields::members_at))]
pub fn members(
    alloc: Global,
    text: &[u8],
    tokens: &[Token],
    at: usize,
) -> Result<(FieldList, usize), QuoteFault>
    requires { AreWithin text.now tokens.now }
    ensures { Gives text.now tokens.now result (members_at depth_limit (from_on text.now tokens.now at)) }
{
    many::<EachMember>(alloc, text, tokens, at, Mark::LeftBracket)
}
