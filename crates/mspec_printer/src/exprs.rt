//! Expressions.

ghost use Rattle.std.specs.Prelude.{◌≡◌};
ghost use Rattle.mspec_printer.specs.Printed.{Writes, expr, form, operand, quoted};

use crate::words::{append_lit, append_operator};
use mspec_tree::{Expr, Shape};
use std::alloc::AllocError;

/// Whether the expression is primary or dotted.
fn is_tight(e: &Expr) -> bool
    ensures { result ≡ (form e.now).tight }
{
    !matches!(
        &e.shape,
        Shape::Not(_) | Shape::Neg(_) | Shape::Two(..) | Shape::If(..)
    )
}

#[cycle(exprs)]
fn append_operand(text: &mut Vec<u8>, e: &Expr) -> Result<(), AllocError>
    ensures { Writes result text.old.items text.new.items (operand (form e.now)) }
{
    if is_tight(e) {
        append_expr(text, e)
    } else {
        text.extend_from_slice(b"(")?;
        append_expr(text, e)?;
        text.extend_from_slice(b")")
    }
}

/// Adds an expression without quotes around it.
#[cycle(exprs)]
fn append_expr(text: &mut Vec<u8>, e: &Expr) -> Result<(), AllocError>
    ensures { Writes result text.old.items text.new.items (expr e.now) }
{
    match &e.shape {
        Shape::Lit(value) => append_lit(text, *value),
        Shape::Null => text.extend_from_slice(b"null"),
        Shape::Name(name) => text.extend_from_slice(name.as_slice()),
        Shape::CurPos => text.extend_from_slice(b"curPos"),
        Shape::Length => text.extend_from_slice(b"lengthInBytes"),
        Shape::LastItem => text.extend_from_slice(b"lastItem"),
        Shape::SumBytes => text.extend_from_slice(b"SUM_BYTES"),
        Shape::XorBytes => text.extend_from_slice(b"XOR_BYTES"),
        Shape::Dot(of, name) => {
            append_operand(text, of.get())?;
            text.extend_from_slice(b".")?;
            text.extend_from_slice(name.as_slice())
        }
        Shape::LengthOf(of) => {
            append_operand(text, of.get())?;
            text.extend_from_slice(b".lengthInBytes")
        }
        Shape::Count(of) => {
            text.extend_from_slice(b"COUNT(")?;
            append_expr(text, of.get())?;
            text.extend_from_slice(b")")
        }
        Shape::Cast(of, name) => {
            text.extend_from_slice(b"CAST(")?;
            append_expr(text, of.get())?;
            text.extend_from_slice(b", ")?;
            text.extend_from_slice(name.as_slice())?;
            text.extend_from_slice(b")")
        }
        Shape::Not(of) => {
            text.extend_from_slice(b"!")?;
            append_operand(text, of.get())
        }
        Shape::Neg(of) => {
            text.extend_from_slice(b"-")?;
            append_operand(text, of.get())
        }
        Shape::Two(with, a, b) => {
            append_operand(text, a.get())?;
            text.extend_from_slice(b" ")?;
            append_operator(text, *with)?;
            text.extend_from_slice(b" ")?;
            append_operand(text, b.get())
        }
        Shape::If(condition, a, b) => {
            append_operand(text, condition.get())?;
            text.extend_from_slice(b" ? ")?;
            append_operand(text, a.get())?;
            text.extend_from_slice(b" : ")?;
            append_operand(text, b.get())
        }
    }
}

/// Adds an expression in quotes.
pub fn append_quoted(text: &mut Vec<u8>, e: &Expr) -> Result<(), AllocError>
    ensures { Writes result text.old.items text.new.items (quoted (expr e.now)) }
{
    text.extend_from_slice(b"'")?;
    append_expr(text, e)?;
    text.extend_from_slice(b"'")
}
