//! Lists whose items stand apart by a comma and a blank.

#![tactic(auto, using(crate::proofs::WriteLaws::texts))]

ghost use Rattle.std.specs.Prelude.{◌≡◌, ◌∷◌, ◌++◌, map, OnOk};
ghost use Rattle.std.specs.List.{flat_map};
ghost use Rattle.mspec_lexer.specs.Tokens.{text_of};
ghost use Rattle.mspec_printer.specs.Printed.{Writes, attributes, in_parentheses, keys, listed, unless_empty};

use crate::exprs::append_quoted;
use crate::fields::append_ref;
use crate::words::append_lit;
use mspec_tree::{Expr, Key, Lit, Name, Param};
use std::alloc::AllocError;

/// What can stand in a list.
pub trait Item {
    ghost use Rattle.std.specs.Prelude.{List};
    ghost use Rattle.mspec_lexer.specs.Tokens.{Piece};

    ghost pieces: { Self → List Piece };

    fn append(&self, text: &mut Vec<u8>) -> Result<(), AllocError>
        ensures { Writes result text.old.items text.new.items (pieces self.now) };
}

impl Item for Name {
    ghost use Rattle.mspec_printer.specs.Printed.{word};

    ghost pieces = { λ name. word name };

    fn append(&self, text: &mut Vec<u8>) -> Result<(), AllocError> {
        text.extend_from_slice(self.as_slice())
    }
}

impl Item for Expr {
    ghost use Rattle.mspec_printer.specs.Printed.{expr, quoted};

    ghost pieces = { λ e. quoted (expr e) };

    fn append(&self, text: &mut Vec<u8>) -> Result<(), AllocError> {
        append_quoted(text, self)
    }
}

impl Item for Lit {
    ghost use Rattle.mspec_printer.specs.Printed.{lit, quoted};

    ghost pieces = { λ value. quoted (lit value) };

    fn append(&self, text: &mut Vec<u8>) -> Result<(), AllocError> {
        text.extend_from_slice(b"'")?;
        append_lit(text, *self)?;
        text.extend_from_slice(b"'")
    }
}

impl Item for Key {
    ghost use Rattle.mspec_printer.specs.Printed.{key_in_quotes, quoted};

    ghost pieces = { λ key. quoted (key_in_quotes key) };

    fn append(&self, text: &mut Vec<u8>) -> Result<(), AllocError> {
        match self {
            Key::Any => text.extend_from_slice(b"'*'"),
            Key::Lit(value) => value.append(text),
            Key::Constant(name) => {
                text.extend_from_slice(b"'")?;
                text.extend_from_slice(name.as_slice())?;
                text.extend_from_slice(b"'")
            }
        }
    }
}

impl Item for Param {
    ghost use Rattle.mspec_printer.specs.Printed.{param};

    ghost pieces = { λ p. param p };

    fn append(&self, text: &mut Vec<u8>) -> Result<(), AllocError> {
        append_ref(text, &self.kind)?;
        text.extend_from_slice(b" ")?;
        text.extend_from_slice(self.name.as_slice())
    }
}

/// Adds items, each behind a comma and a blank.
fn append_more<T: Item>(text: &mut Vec<u8>, items: &[T]) -> Result<(), AllocError>
    ensures { OnOk result (text.new.items ≡ text.old.items ++ flat_map (λ item. 44 ∷ 32 ∷ text_of (T.pieces item)) items.now) }
{
    for item in items {
        text.extend_from_slice(b", ")?;
        item.append(text)?;
    }
    Ok(())
}

pub fn append_listed<T: Item>(text: &mut Vec<u8>, items: &[T]) -> Result<(), AllocError>
    ensures { Writes result text.old.items text.new.items (listed (map T.pieces items.now)) }
{
    match items {
        [] => Ok(()),
        [first, more @ ..] => {
            first.append(text)?;
            append_more(text, more)
        }
    }
}

/// Adds items in parentheses, or nothing if there are none.
pub fn append_in_parentheses<T: Item>(text: &mut Vec<u8>, items: &[T]) -> Result<(), AllocError>
    ensures { Writes result text.old.items text.new.items
        (unless_empty (λ some. in_parentheses (listed (map T.pieces some))) items.now) }
{
    if items.is_empty() {
        return Ok(());
    }
    text.extend_from_slice(b"(")?;
    append_listed(text, items)?;
    text.extend_from_slice(b")")
}

/// Adds the keys of a case and a blank, or nothing if there are none.
pub fn append_keys(text: &mut Vec<u8>, items: &[Key]) -> Result<(), AllocError>
    ensures { Writes result text.old.items text.new.items (keys items.now) }
{
    if items.is_empty() {
        return Ok(());
    }
    append_listed(text, items)?;
    text.extend_from_slice(b" ")
}

/// Adds the attributes of a constant behind a blank, or nothing if there are none.
pub fn append_attributes(text: &mut Vec<u8>, items: &[Lit]) -> Result<(), AllocError>
    ensures { Writes result text.old.items text.new.items (attributes items.now) }
{
    if items.is_empty() {
        return Ok(());
    }
    text.extend_from_slice(b" [")?;
    append_listed(text, items)?;
    text.extend_from_slice(b"]")
}
