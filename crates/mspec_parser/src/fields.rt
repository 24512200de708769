ghost use Rattle.std.specs.Prelude.{◌≡◌};
ghost use Rattle.mspec_tree.specs.Depth.{depth_limit};
ghost use Rattle.mspec_grammar.specs.Senses.{AreWithin, sensed};
ghost use Rattle.mspec_parser.specs.Readers.{from_on, Gives};
ghost use Rattle.mspec_parser.specs.Fields.{ref_name_at, kind_name_at, simple_name_at, simple_body, discriminator_body, const_body, reserved_body, implicit_body, virtual_body, optional_body, checksum_body, padding_body, array_body, body_from, field_of, field_from, field_at, fields_at, pick_array, pick_field};

use crate::heads::order;
use crate::lists::{Part, many};
use crate::literals::{const_lit, quoted_lit};
use crate::tokens::{mark, name, next};
use crate::types::{expression, kind, reference, simple};
use crate::words::{ArrayWord, FieldWord, Mark, array_word, field_word, is_left_out_field};
use mspec_grammar::{ParseWhy, Sense, spells};
use mspec_lexer::Token;
use mspec_quotes::QuoteFault;
use mspec_tree::{Body, ByteOrder, Field, FieldList, Name, Place, Ref, Simple};
use sqlite_items::Items;
use std::alloc::Global;

/// What stands in a field before its byte order, with its name and the name's place.
#[derive(Drop)]
pub struct NamedBody {
    pub named: Place,
    pub name: Name,
    pub body: Body,
}

/// A type with its arguments, and a name.
#[tactic(auto, unfolding(crate::specs::Fields::ref_name_at))]
fn reference_name(
    alloc: Global,
    text: &[u8],
    tokens: &[Token],
    at: usize,
) -> Result<((Ref, (Name, Place)), usize), QuoteFault>
    requires { AreWithin text.now tokens.now }
    ensures { Gives text.now tokens.now result (ref_name_at depth_limit (from_on text.now tokens.now at)) }
{
    let (of, at) = reference(alloc, text, tokens, at)?;
    let (named, at) = name(alloc, text, tokens, at)?;
    Ok(((of, named), at))
}

/// A type without arguments, and a name.
#[tactic(auto, unfolding(crate::specs::Fields::kind_name_at))]
fn kind_name(
    alloc: Global,
    text: &[u8],
    tokens: &[Token],
    at: usize,
) -> Result<((Ref, (Name, Place)), usize), QuoteFault>
    requires { AreWithin text.now tokens.now }
    ensures { Gives text.now tokens.now result (kind_name_at (from_on text.now tokens.now at)) }
{
    let (of, at) = kind(alloc, text, tokens, at)?;
    let (named, at) = name(alloc, text, tokens, at)?;
    Ok(((of, named), at))
}

/// A type with a word of its own, and a name.
#[tactic(auto, unfolding(crate::specs::Fields::simple_name_at))]
fn simple_name(
    alloc: Global,
    text: &[u8],
    tokens: &[Token],
    at: usize,
) -> Result<((Simple, (Name, Place)), usize), QuoteFault>
    requires { AreWithin text.now tokens.now }
    ensures { Gives text.now tokens.now result (simple_name_at (from_on text.now tokens.now at)) }
{
    let (of, at) = simple(text, tokens, at)?;
    let (named, at) = name(alloc, text, tokens, at)?;
    Ok(((of, named), at))
}

#[tactic(auto, unfolding(crate::specs::Fields::simple_body))]
fn simple_body(
    alloc: Global,
    text: &[u8],
    tokens: &[Token],
    at: usize,
) -> Result<(NamedBody, usize), QuoteFault>
    requires { AreWithin text.now tokens.now }
    ensures { Gives text.now tokens.now result (simple_body depth_limit (from_on text.now tokens.now at)) }
{
    let ((of, (name, named)), at) = reference_name(alloc, text, tokens, at)?;
    let body = Body::Simple(of);
    Ok((NamedBody { named, name, body }, at))
}

#[tactic(auto, unfolding(crate::specs::Fields::discriminator_body))]
fn discriminator_body(
    alloc: Global,
    text: &[u8],
    tokens: &[Token],
    at: usize,
) -> Result<(NamedBody, usize), QuoteFault>
    requires { AreWithin text.now tokens.now }
    ensures { Gives text.now tokens.now result (discriminator_body (from_on text.now tokens.now at)) }
{
    let ((of, (name, named)), at) = kind_name(alloc, text, tokens, at)?;
    let body = Body::Discriminator(of);
    Ok((NamedBody { named, name, body }, at))
}

#[tactic(auto, unfolding(crate::specs::Fields::const_body))]
fn const_body(
    alloc: Global,
    text: &[u8],
    tokens: &[Token],
    at: usize,
) -> Result<(NamedBody, usize), QuoteFault>
    requires { AreWithin text.now tokens.now }
    ensures { Gives text.now tokens.now result (const_body (from_on text.now tokens.now at)) }
{
    let ((of, (name, named)), at) = simple_name(alloc, text, tokens, at)?;
    let (lit, at) = const_lit(text, tokens, at)?;
    let body = Body::Const(of, lit);
    Ok((NamedBody { named, name, body }, at))
}

#[tactic(auto, unfolding(crate::specs::Fields::reserved_body))]
fn reserved_body(
    alloc: Global,
    text: &[u8],
    tokens: &[Token],
    at: usize,
    bracket: Place,
) -> Result<(NamedBody, usize), QuoteFault>
    requires { AreWithin text.now tokens.now }
    ensures { Gives text.now tokens.now result (reserved_body bracket (from_on text.now tokens.now at)) }
{
    let (of, at) = simple(text, tokens, at)?;
    let (lit, at) = quoted_lit(text, tokens, at)?;
    let name = Items::new(alloc);
    let body = Body::Reserved(of, lit);
    Ok((
        NamedBody {
            named: bracket,
            name,
            body,
        },
        at,
    ))
}

#[tactic(auto, unfolding(crate::specs::Fields::implicit_body))]
fn implicit_body(
    alloc: Global,
    text: &[u8],
    tokens: &[Token],
    at: usize,
) -> Result<(NamedBody, usize), QuoteFault>
    requires { AreWithin text.now tokens.now }
    ensures { Gives text.now tokens.now result (implicit_body depth_limit (from_on text.now tokens.now at)) }
{
    let ((of, (name, named)), at) = kind_name(alloc, text, tokens, at)?;
    let (expr, at) = expression(alloc, text, tokens, at)?;
    let body = Body::Implicit(of, expr);
    Ok((NamedBody { named, name, body }, at))
}

#[tactic(auto, unfolding(crate::specs::Fields::virtual_body))]
fn virtual_body(
    alloc: Global,
    text: &[u8],
    tokens: &[Token],
    at: usize,
) -> Result<(NamedBody, usize), QuoteFault>
    requires { AreWithin text.now tokens.now }
    ensures { Gives text.now tokens.now result (virtual_body depth_limit (from_on text.now tokens.now at)) }
{
    let ((of, (name, named)), at) = kind_name(alloc, text, tokens, at)?;
    let (expr, at) = expression(alloc, text, tokens, at)?;
    let body = Body::Virtual(of, expr);
    Ok((NamedBody { named, name, body }, at))
}

#[tactic(auto, unfolding(crate::specs::Fields::optional_body))]
fn optional_body(
    alloc: Global,
    text: &[u8],
    tokens: &[Token],
    at: usize,
) -> Result<(NamedBody, usize), QuoteFault>
    requires { AreWithin text.now tokens.now }
    ensures { Gives text.now tokens.now result (optional_body depth_limit (from_on text.now tokens.now at)) }
{
    let ((of, (name, named)), at) = reference_name(alloc, text, tokens, at)?;
    let (expr, at) = expression(alloc, text, tokens, at)?;
    let body = Body::Optional(of, expr);
    Ok((NamedBody { named, name, body }, at))
}

#[tactic(auto, unfolding(crate::specs::Fields::checksum_body))]
fn checksum_body(
    alloc: Global,
    text: &[u8],
    tokens: &[Token],
    at: usize,
) -> Result<(NamedBody, usize), QuoteFault>
    requires { AreWithin text.now tokens.now }
    ensures { Gives text.now tokens.now result (checksum_body depth_limit (from_on text.now tokens.now at)) }
{
    let ((of, (name, named)), at) = simple_name(alloc, text, tokens, at)?;
    let (expr, at) = expression(alloc, text, tokens, at)?;
    let body = Body::Checksum(of, expr);
    Ok((NamedBody { named, name, body }, at))
}

#[tactic(auto, unfolding(crate::specs::Fields::padding_body))]
fn padding_body(
    alloc: Global,
    text: &[u8],
    tokens: &[Token],
    at: usize,
) -> Result<(NamedBody, usize), QuoteFault>
    requires { AreWithin text.now tokens.now }
    ensures { Gives text.now tokens.now result (padding_body depth_limit (from_on text.now tokens.now at)) }
{
    let ((of, (name, named)), at) = simple_name(alloc, text, tokens, at)?;
    let (lit, at) = quoted_lit(text, tokens, at)?;
    let (expr, at) = expression(alloc, text, tokens, at)?;
    let body = Body::Padding(of, lit, expr);
    Ok((NamedBody { named, name, body }, at))
}

/// What an array's expression says, by the token's word.
fn array_start(sense: Sense<'_>) -> Result<ArrayWord, ParseWhy>
    ensures { result ≡ pick_array (sensed sense.entry) }
{
    let Sense::Name(bytes) = sense else {
        return Err(ParseWhy::Unexpected);
    };
    match array_word(bytes) {
        Some(word) => Ok(word),
        None if spells(bytes, b"terminated") => Err(ParseWhy::LeftOut),
        None => Err(ParseWhy::Unexpected),
    }
}

#[tactic(auto, unfolding(crate::specs::Fields::array_body))]
fn array_body(
    alloc: Global,
    text: &[u8],
    tokens: &[Token],
    at: usize,
) -> Result<(NamedBody, usize), QuoteFault>
    requires { AreWithin text.now tokens.now }
    ensures { Gives text.now tokens.now result (array_body depth_limit (from_on text.now tokens.now at)) }
{
    let ((of, (name, named)), at) = reference_name(alloc, text, tokens, at)?;
    let ((sense, _), after) = next(text, tokens, at)?;
    let how = match array_start(sense) {
        Ok(how) => how,
        Err(why) => return Err(QuoteFault::At { index: at, why }),
    };
    let (expr, after) = expression(alloc, text, tokens, after)?;
    let body = match how {
        ArrayWord::Count => Body::CountArray(of, expr),
        ArrayWord::Length => Body::LengthArray(of, expr),
    };
    Ok((NamedBody { named, name, body }, after))
}

/// What stands behind a field's word, up to its byte order.
fn body_from(
    alloc: Global,
    text: &[u8],
    tokens: &[Token],
    at: usize,
    bracket: Place,
    word: FieldWord,
) -> Result<(NamedBody, usize), QuoteFault>
    requires { AreWithin text.now tokens.now }
    ensures { Gives text.now tokens.now result (body_from depth_limit bracket word (from_on text.now tokens.now at)) }
{
    match word {
        FieldWord::Simple => simple_body(alloc, text, tokens, at),
        FieldWord::Discriminator => discriminator_body(alloc, text, tokens, at),
        FieldWord::Const => const_body(alloc, text, tokens, at),
        FieldWord::Reserved => reserved_body(alloc, text, tokens, at, bracket),
        FieldWord::Implicit => implicit_body(alloc, text, tokens, at),
        FieldWord::Virtual => virtual_body(alloc, text, tokens, at),
        FieldWord::Optional => optional_body(alloc, text, tokens, at),
        FieldWord::Checksum => checksum_body(alloc, text, tokens, at),
        FieldWord::Padding => padding_body(alloc, text, tokens, at),
        FieldWord::Array => array_body(alloc, text, tokens, at),
    }
}

/// The field whose bracket stands at a place.
fn field_of(place: Place, inner: NamedBody, order: Option<ByteOrder>) -> Field
    ensures { result ≡ field_of place inner order }
{
    let NamedBody { named, name, body } = inner;
    Field {
        place,
        named,
        name,
        order,
        body,
    }
}

/// What stands behind a field's word.
#[tactic(auto, unfolding(crate::specs::Fields::field_from))]
pub fn field_from(
    alloc: Global,
    text: &[u8],
    tokens: &[Token],
    at: usize,
    bracket: Place,
    word: FieldWord,
) -> Result<(Field, usize), QuoteFault>
    requires { AreWithin text.now tokens.now }
    ensures { Gives text.now tokens.now result (field_from depth_limit bracket word (from_on text.now tokens.now at)) }
{
    let (inner, at) = body_from(alloc, text, tokens, at, bracket, word)?;
    // What is dropped by name is proved once, for every type.
    let (order, at) = match order(text, tokens, at) {
        Ok(read) => read,
        Err(fault) => {
            drop(inner);
            return Err(fault);
        }
    };
    match mark(text, tokens, at, Mark::RightBracket) {
        Ok((_, at)) => Ok((field_of(bracket, inner, order), at)),
        Err(fault) => {
            drop(inner);
            Err(fault)
        }
    }
}

/// The word that a field begins with.
pub fn field_start(sense: Sense<'_>) -> Result<FieldWord, ParseWhy>
    ensures { result ≡ pick_field (sensed sense.entry) }
{
    let Sense::Name(bytes) = sense else {
        return Err(ParseWhy::Unexpected);
    };
    match field_word(bytes) {
        Some(word) => Ok(word),
        None if is_left_out_field(bytes) => Err(ParseWhy::LeftOut),
        None => Err(ParseWhy::Unexpected),
    }
}

#[tactic(auto, unfolding(crate::specs::Fields::field_at))]
fn field(
    alloc: Global,
    text: &[u8],
    tokens: &[Token],
    at: usize,
) -> Result<(Field, usize), QuoteFault>
    requires { AreWithin text.now tokens.now }
    ensures { Gives text.now tokens.now result (field_at depth_limit (from_on text.now tokens.now at)) }
{
    let (bracket, at) = mark(text, tokens, at, Mark::LeftBracket)?;
    let ((sense, _), after) = next(text, tokens, at)?;
    let word = match field_start(sense) {
        Ok(word) => word,
        Err(why) => return Err(QuoteFault::At { index: at, why }),
    };
    field_from(alloc, text, tokens, after, bracket, word)
}

struct EachField;

impl Part for EachField {
    type Item = Field;

    ghost read = { field_at depth_limit };

    fn part(
        alloc: Global,
        text: &[u8],
        tokens: &[Token],
        at: usize,
    ) -> Result<(Field, usize), QuoteFault> {
        field(alloc, text, tokens, at)
    }
}

/// Fields, one behind another.
#[tactic(auto, unfolding(crate::specs::Fields::fields_at))]
pub fn fields(
    alloc: Global,
    text: &[u8],
    tokens: &[Token],
    at: usize,
) -> Result<(FieldList, usize), QuoteFault>
    requires { AreWithin text.now tokens.now }
    ensures { Gives text.now tokens.now result (fields_at depth_limit (from_on text.now tokens.now at)) }
{
    many::<EachField>(alloc, text, tokens, at, Mark::LeftBracket)
}
