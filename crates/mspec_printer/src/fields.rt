//! Types of fields, fields and switches.

#![tactic(auto, using(crate::proofs::WriteLaws::texts))]

ghost use Rattle.std.specs.Prelude.{◌≡◌, [], ◌∷◌, ◌++◌, OnOk};
ghost use Rattle.std.specs.List.{flat_map};
ghost use Rattle.std.specs.Option.{option_map};
ghost use Rattle.mspec_lexer.specs.Tokens.{text_of};
ghost use Rattle.mspec_tree.specs.declared.fields.Body.{out-Body};
ghost use Rattle.mspec_tree.specs.declared.fields.Body.TheOpen.{Const, Checksum, Padding};
ghost use Rattle.mspec_printer.specs.Printed.{Writes, block, body_words, case, cases_of, expr, field, field_head, member, quoted, ref, simple, spaced};

use crate::exprs::append_quoted;
use crate::lists::{Item, append_in_parentheses, append_keys, append_listed};
use crate::words::{append_lit, append_order, append_simple};
use mspec_tree::{Body, Case, Expr, Field, Lit, Ref, Simple};
use std::alloc::AllocError;

/// Adds a type with its arguments.
pub fn append_ref(text: &mut Vec<u8>, of: &Ref) -> Result<(), AllocError>
    ensures { Writes result text.old.items text.new.items (ref of.now) }
{
    match of {
        Ref::Plain(written) => append_simple(text, *written),
        Ref::Named { name, args, .. } => {
            text.extend_from_slice(name.as_slice())?;
            append_in_parentheses(text, args.as_slice())
        }
    }
}

/// Adds a word that ends with a blank, a type and a name.
fn append_typed(text: &mut Vec<u8>, word: &[u8], of: &Ref, name: &[u8]) -> Result<(), AllocError>
    ensures { OnOk result (text.new.items ≡ text.old.items ++ (word.now ++ (text_of (ref of.now) ++ (32 ∷ name.now)))) }
{
    text.extend_from_slice(word)?;
    append_ref(text, of)?;
    text.extend_from_slice(b" ")?;
    text.extend_from_slice(name)
}

/// The same with an expression in quotes. `between` begins and ends with a blank.
fn append_computed(
    text: &mut Vec<u8>,
    word: &[u8],
    of: &Ref,
    name: &[u8],
    between: &[u8],
    e: &Expr,
) -> Result<(), AllocError>
    ensures { OnOk result (text.new.items ≡ text.old.items
        ++ (word.now ++ (text_of (ref of.now) ++ (32 ∷ name.now ++ (between.now ++ text_of (quoted (expr e.now))))))) }
{
    append_typed(text, word, of, name)?;
    text.extend_from_slice(between)?;
    append_quoted(text, e)
}

/// Adds a word that ends with a blank, a type that is written by its own word, a blank and what follows.
fn append_plain(
    text: &mut Vec<u8>,
    word: &[u8],
    of: Simple,
    behind: &[u8],
) -> Result<(), AllocError>
    ensures { OnOk result (text.new.items ≡ text.old.items ++ (word.now ++ (text_of (simple of) ++ (32 ∷ behind.now)))) }
{
    text.extend_from_slice(word)?;
    append_simple(text, of)?;
    text.extend_from_slice(b" ")?;
    text.extend_from_slice(behind)
}

fn append_const(text: &mut Vec<u8>, of: Simple, name: &[u8], value: Lit) -> Result<(), AllocError>
    ensures { Writes result text.old.items text.new.items (spaced (body_words name.now (Const of value))) }
{
    append_plain(text, b"const ", of, name)?;
    text.extend_from_slice(b" ")?;
    append_lit(text, value)
}

fn append_checksum(text: &mut Vec<u8>, of: Simple, name: &[u8], e: &Expr) -> Result<(), AllocError>
    ensures { Writes result text.old.items text.new.items (spaced (body_words name.now (Checksum of e.now))) }
{
    append_plain(text, b"checksum ", of, name)?;
    text.extend_from_slice(b" ")?;
    append_quoted(text, e)
}

fn append_padding(
    text: &mut Vec<u8>,
    of: Simple,
    name: &[u8],
    value: Lit,
    e: &Expr,
) -> Result<(), AllocError>
    ensures { Writes result text.old.items text.new.items (spaced (body_words name.now (Padding of value e.now))) }
{
    append_plain(text, b"padding ", of, name)?;
    text.extend_from_slice(b" ")?;
    value.append(text)?;
    text.extend_from_slice(b" ")?;
    append_quoted(text, e)
}

/// Adds the words of a field with this name, up to its byte order.
fn append_body(text: &mut Vec<u8>, name: &[u8], body: &Body) -> Result<(), AllocError>
    ensures { Writes result text.old.items text.new.items (spaced (body_words name.now (out-Body body.now))) }
{
    match body {
        Body::Simple(of) => append_typed(text, b"simple ", of, name),
        Body::Discriminator(of) => append_typed(text, b"discriminator ", of, name),
        Body::Const(of, value) => append_const(text, *of, name, *value),
        Body::Reserved(of, value) => {
            append_plain(text, b"reserved ", *of, b"")?;
            value.append(text)
        }
        Body::Implicit(of, e) => append_computed(text, b"implicit ", of, name, b" ", e),
        Body::Virtual(of, e) => append_computed(text, b"virtual ", of, name, b" ", e),
        Body::Optional(of, e) => append_computed(text, b"optional ", of, name, b" ", e),
        Body::Checksum(of, e) => append_checksum(text, *of, name, e),
        Body::Padding(of, value, e) => append_padding(text, *of, name, *value, e),
        Body::CountArray(of, e) => append_computed(text, b"array ", of, name, b" count ", e),
        Body::LengthArray(of, e) => append_computed(text, b"array ", of, name, b" length ", e),
        Body::Switch(names, _) => {
            text.extend_from_slice(b"typeSwitch ")?;
            append_listed(text, names.as_slice())
        }
    }
}

fn append_head(text: &mut Vec<u8>, f: &Field) -> Result<(), AllocError>
    ensures { Writes result text.old.items text.new.items (field_head f.now) }
{
    append_body(text, f.name.as_slice(), &f.body)?;
    append_order(text, f.order)
}

/// Adds a field on its line. `start` is its bracket, behind two blanks for each step of depth.
fn append_field(text: &mut Vec<u8>, start: &[u8], f: &Field) -> Result<(), AllocError>
    ensures { OnOk result (text.new.items ≡ text.old.items ++ (start.now ++ (text_of (field_head f.now) ++ (93 ∷ 10 ∷ [])))) }
{
    text.extend_from_slice(start)?;
    append_head(text, f)?;
    text.extend_from_slice(b"]\n")
}

fn append_case_fields(text: &mut Vec<u8>, fields: &[Field]) -> Result<(), AllocError>
    ensures { OnOk result (text.new.items ≡ text.old.items ++ flat_map (λ f. text_of (field 3 f)) fields.now) }
{
    for f in fields {
        append_field(text, b"      [", f)?;
    }
    Ok(())
}

fn append_case(text: &mut Vec<u8>, c: &Case) -> Result<(), AllocError>
    ensures { Writes result text.old.items text.new.items (case 2 c.now) }
{
    text.extend_from_slice(b"    [")?;
    append_keys(text, c.keys.as_slice())?;
    text.extend_from_slice(c.name.as_slice())?;
    text.extend_from_slice(b"\n")?;
    append_case_fields(text, c.fields.as_slice())?;
    text.extend_from_slice(b"    ]\n")
}

fn append_cases(text: &mut Vec<u8>, cases: &[Case]) -> Result<(), AllocError>
    ensures { OnOk result (text.new.items ≡ text.old.items ++ flat_map (λ c. text_of (case 2 c)) cases.now) }
{
    for c in cases {
        append_case(text, c)?;
    }
    Ok(())
}

fn append_switch(text: &mut Vec<u8>, f: &Field, cases: &[Case]) -> Result<(), AllocError>
    ensures { Writes result text.old.items text.new.items (block 1 (field_head f.now) (flat_map (λ c. case 2 c) cases.now)) }
{
    text.extend_from_slice(b"  [")?;
    append_head(text, f)?;
    text.extend_from_slice(b"\n")?;
    append_cases(text, cases)?;
    text.extend_from_slice(b"  ]\n")
}

/// The cases of a switch; no other field has any.
fn cases_of(body: &Body) -> Option<&[Case]>
    ensures { option_map (λ cases. cases.now) result ≡ cases_of (out-Body body.now) }
{
    match body {
        Body::Switch(_, cases) => Some(cases.as_slice()),
        _ => None,
    }
}

/// Adds a field of a definition: a switch with its cases, or a field on its line.
pub fn append_member(text: &mut Vec<u8>, f: &Field) -> Result<(), AllocError>
    ensures { Writes result text.old.items text.new.items (member f.now) }
{
    match cases_of(&f.body) {
        Some(cases) => append_switch(text, f, cases),
        None => append_field(text, b"  [", f),
    }
}
