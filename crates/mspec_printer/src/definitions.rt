//! Definitions, and whole descriptions.

#![tactic(auto, using(crate::proofs::WriteLaws::texts))]

ghost use Rattle.std.specs.Prelude.{◌≡◌, ◌≤◌, ◌∷◌, ◌++◌, [], length, IfOk, OnOk};
ghost use Rattle.std.specs.List.{flat_map};
ghost use Rattle.mspec_lexer.specs.Tokens.{text_limit, text_of};
ghost use Rattle.mspec_tree.specs.Form.{IsWritten};
ghost use Rattle.mspec_printer.specs.Alike.{ParsesAlike};
ghost use Rattle.mspec_printer.specs.Printed.{Writes, constant, definition, inner, kind_words, member, named, printed, spaced};

use crate::fields::append_member;
use crate::lists::{Item, append_attributes, append_in_parentheses};
use crate::words::{append_order, append_simple};
use mspec_tree::{Constant, Def, DefBody, Description, Field};
use node_tree::ByteList;
use std::alloc::{AllocError, Global};

fn append_constant(text: &mut Vec<u8>, c: &Constant) -> Result<(), AllocError>
    ensures { Writes result text.old.items text.new.items (constant c.now) }
{
    text.extend_from_slice(b"  [")?;
    c.value.append(text)?;
    text.extend_from_slice(b" ")?;
    text.extend_from_slice(c.name.as_slice())?;
    append_attributes(text, c.attrs.as_slice())?;
    text.extend_from_slice(b"]\n")
}

fn append_constants(text: &mut Vec<u8>, constants: &[Constant]) -> Result<(), AllocError>
    ensures { OnOk result (text.new.items ≡ text.old.items ++ flat_map (λ one. text_of (constant one)) constants.now) }
{
    for c in constants {
        append_constant(text, c)?;
    }
    Ok(())
}

fn append_members(text: &mut Vec<u8>, fields: &[Field]) -> Result<(), AllocError>
    ensures { OnOk result (text.new.items ≡ text.old.items ++ flat_map (λ one. text_of (member one)) fields.now) }
{
    for f in fields {
        append_member(text, f)?;
    }
    Ok(())
}

/// Adds the words in front of a definition's name, and a blank.
fn append_kind(text: &mut Vec<u8>, body: &DefBody) -> Result<(), AllocError>
    ensures { OnOk result (text.new.items ≡ text.old.items ++ (text_of (spaced (kind_words body.now)) ++ 32 ∷ [])) }
{
    match body {
        DefBody::Plain(_) => text.extend_from_slice(b"type "),
        DefBody::Switched(_) => text.extend_from_slice(b"discriminatedType "),
        DefBody::DataIo(_) => text.extend_from_slice(b"dataIo "),
        DefBody::Enum(base, _) => {
            text.extend_from_slice(b"enum ")?;
            append_simple(text, *base)?;
            text.extend_from_slice(b" ")
        }
    }
}

fn append_named(text: &mut Vec<u8>, d: &Def) -> Result<(), AllocError>
    ensures { Writes result text.old.items text.new.items (named d.now) }
{
    text.extend_from_slice(d.name.as_slice())?;
    append_in_parentheses(text, d.params.as_slice())
}

fn append_inner(text: &mut Vec<u8>, body: &DefBody) -> Result<(), AllocError>
    ensures { Writes result text.old.items text.new.items (inner body.now) }
{
    match body {
        DefBody::Plain(fields) => append_members(text, fields.as_slice()),
        DefBody::Switched(fields) => append_members(text, fields.as_slice()),
        DefBody::DataIo(switch) => append_member(text, switch),
        DefBody::Enum(_, constants) => append_constants(text, constants.as_slice()),
    }
}

fn append_definition(text: &mut Vec<u8>, d: &Def) -> Result<(), AllocError>
    ensures { Writes result text.old.items text.new.items (definition d.now) }
{
    text.extend_from_slice(b"[")?;
    append_kind(text, &d.body)?;
    append_named(text, d)?;
    append_order(text, d.order)?;
    text.extend_from_slice(b"\n")?;
    append_inner(text, &d.body)?;
    text.extend_from_slice(b"]\n")
}

fn append_definitions(text: &mut Vec<u8>, defs: &[Def]) -> Result<(), AllocError>
    ensures { OnOk result (text.new.items ≡ text.old.items ++ flat_map (λ one. text_of (definition one)) defs.now) }
{
    for d in defs {
        append_definition(text, d)?;
    }
    Ok(())
}

/// The printed form of a description. It takes time linear in the text, and may have more bytes than a text that is read may.
///
/// Where a text can give the description, and what is printed has at most 1,048,576 bytes, it parses to the same description
/// but for places. A description without definitions has no byte. Numbers are decimal, each key stands in quotes, a const's literal is bare,
/// and byte orders come last. A switch in a case, which no text of the language has, is printed without its cases.
pub fn print_description(alloc: Global, d: &Description) -> Result<ByteList, AllocError>
    ensures text { IfOk result (λ text. text ≡ text_of (printed d.now)) }
    ensures parses { IsWritten d.now → IfOk result (λ text. length text ≤ text_limit → ParsesAlike d.now text) }
{
    let mut text = Vec::new(alloc);
    append_definitions(&mut text, d.defs.as_slice())?;
    Ok(ByteList::from_vec(text))
}
