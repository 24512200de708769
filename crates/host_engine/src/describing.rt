//! Descriptions as texts: whether they are accepted, and which of these are in the first form.

ghost use Rattle.std.specs.Prelude.{◌≡◌, IfOk, IfErr, nat_le, length};
ghost use Rattle.std.specs.List.{list_all};
ghost use Rattle.mspec_tree.specs.declared.fields.Body.{out-Body};
ghost use Rattle.host_engine.specs.FirstForm.{are_first_form, are_plain_fields, has_plain_fields, is_first_form, is_plain_body, is_plain_def, is_plain_field, is_plain_number, is_plain_ref, is_taken, is_width, names_differ};
ghost use Rattle.host_engine.specs.Texts.{Describes, IsRefusedText, OfTextFault, from_check, from_lex, from_parse};

use mspec_check::{CheckFault, CheckWhy, Checked, check};
use mspec_grammar::ParseWhy;
use mspec_lexer::{LexFault, LexWhy, lex};
use mspec_parser::{ParseFault, parse};
use mspec_tree::{Body, Def, DefBody, Description, Field, Place, Ref, Simple};
use std::alloc::Global;

/// The most fields of a type in the first form.
const MAX_FIELDS: usize = 256;

/// Why a text is that of no accepted description: it has no tokens, or these leave the grammar, or its tree breaks a rule.
#[derive(Clone, Copy, Debug, PartialEq, Eq)]
pub enum TextWhy {
    Lex(LexWhy),
    Grammar(ParseWhy),
    Rule(CheckWhy),
}

/// Why a text wasn't accepted: the place at which it is refused, or want of memory.
#[derive(Clone, Copy, Debug, PartialEq, Eq)]
pub enum TextFault {
    At { place: Place, why: TextWhy },
    NoMemory,
}

impl From<LexFault> for TextFault {
    ghost from_gives = { λ fault e. e ≡ from_lex fault };

    fn from(fault: LexFault) -> TextFault {
        match fault {
            LexFault::At { place, why } => TextFault::At {
                place,
                why: TextWhy::Lex(why),
            },
            LexFault::NoMemory => TextFault::NoMemory,
        }
    }
}

impl From<ParseFault> for TextFault {
    ghost from_gives = { λ fault e. e ≡ from_parse fault };

    fn from(fault: ParseFault) -> TextFault {
        match fault {
            ParseFault::At { place, why } => TextFault::At {
                place,
                why: TextWhy::Grammar(why),
            },
            ParseFault::NoMemory => TextFault::NoMemory,
        }
    }
}

impl From<CheckFault> for TextFault {
    ghost from_gives = { λ fault e. e ≡ from_check fault };

    fn from(fault: CheckFault) -> TextFault {
        match fault {
            CheckFault::At { place, why } => TextFault::At {
                place,
                why: TextWhy::Rule(why),
            },
            CheckFault::NoMemory => TextFault::NoMemory,
        }
    }
}

/// The description of a text, which is accepted, or the first of what refuses it: no tokens, no tree, a rule that is broken.
pub fn description_of(alloc: Global, text: &[u8]) -> Result<Checked, TextFault>
    ensures described { IfOk result (λ d. Describes text.now d) }
    ensures fault { IfErr result (λ e. OfTextFault e (λ place why. IsRefusedText text.now place why)) }
{
    let tokens = lex(alloc, text)?;
    let description = parse(alloc, text, &tokens)?;
    let checked = check(alloc, description)?;
    Ok(checked)
}

fn is_width(width: u8) -> bool
    ensures { result ≡ is_width width }
{
    width == 8 || width == 16 || width == 32 || width == 64
}

fn is_plain_number(written: Simple) -> bool
    ensures { result ≡ is_plain_number written }
{
    match written {
        Simple::Uint(width) => is_width(width),
        _ => false,
    }
}

fn is_plain_ref(kind: &Ref) -> bool
    ensures { result ≡ is_plain_ref kind.now }
{
    match kind {
        Ref::Plain(written) => is_plain_number(*written),
        _ => false,
    }
}

fn is_plain_body(body: &Body) -> bool
    ensures { result ≡ is_plain_body (out-Body body.now) }
{
    match body {
        Body::Simple(kind) => is_plain_ref(kind),
        _ => false,
    }
}

/// Whether a field is a `simple` unsigned number of such a width, without an order of bytes of its own.
fn is_plain_field(field: &Field) -> bool
    ensures { result ≡ is_plain_field field.now }
{
    field.order.is_none() && is_plain_body(&field.body)
}

/// Whether all fields are such.
fn are_plain(fields: &[Field]) -> bool
    ensures { result ≡ list_all is_plain_field fields.now }
{
    fields.iter().all(|field| is_plain_field(field))
}

/// Whether a field has the name.
fn is_taken(fields: &[Field], name: &[u8]) -> bool
    ensures { result ≡ is_taken fields.now name.now }
{
    fields.iter().any(|field| field.name.as_slice() == name)
}

/// Whether the fields' names differ from each other.
fn names_differ(fields: &[Field]) -> bool
    ensures { result ≡ names_differ fields.now }
{
    let mut rest = fields;
    while let Some((first, others)) = rest.split_first() {
        if is_taken(others, first.name.as_slice()) {
            return false;
        }
        rest = others;
    }
    true
}

/// Whether they are the fields of a type in the first form. Their number is tested before their names are compared.
fn are_plain_fields(fields: &[Field]) -> bool
    ensures { result ≡ are_plain_fields fields.now }
{
    !fields.is_empty() && fields.len() <= MAX_FIELDS && are_plain(fields) && names_differ(fields)
}

fn has_plain_fields(body: &DefBody) -> bool
    ensures { result ≡ has_plain_fields body.now }
{
    match body {
        DefBody::Plain(fields) => are_plain_fields(fields.as_slice()),
        _ => false,
    }
}

/// Whether a definition is a type in the first form.
fn is_plain_def(def: &Def) -> bool
    ensures { result ≡ is_plain_def def.now }
{
    def.params.as_slice().is_empty() && def.order.is_none() && has_plain_fields(&def.body)
}

/// Whether a description is in the first form.
pub fn is_first_form(d: &Description) -> bool
    ensures { result ≡ is_first_form d.now }
{
    match d.defs.as_slice() {
        [def] => is_plain_def(def),
        _ => false,
    }
}
