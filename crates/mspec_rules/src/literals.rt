//! Literals that aren't of their type's kind and range.

ghost use Rattle.std.specs.Prelude.{◌≡◌, pos};
ghost use Rattle.mspec_tree.specs.declared.fields.Field.{out-Field};
ghost use Rattle.mspec_expr.specs.Kinds.{in_range, layer, ref_simple, signed};
ghost use Rattle.mspec_rules.specs.Wrongs.{earlier, found};
ghost use Rattle.mspec_rules.specs.Literals.{attr_fits, attrs_fit, body_literal, constant_wrongs, field_literal, lit_fits, lit_wrongs};

use crate::types::{is_base, is_width, ref_simple};
use crate::wrongs::{CheckWhy, Rule, Wrong, told_if, told_when};
use mspec_expr::{Range, own_range, width};
use mspec_tree::{Body, Constant, Description, Field, Lit, Param, Place, Simple};
use sqlite_items::at;

fn is_in(range: Range, negative: bool, size: u128) -> bool
    ensures { result ≡ in_range range (signed negative size) }
{
    if negative {
        range.low <= 0
            && size <= range.low.unsigned_abs()
            && (range.high >= 0 || size >= range.high.unsigned_abs())
    } else {
        range.high >= 0
            && size <= range.high.unsigned_abs()
            && (range.low <= 0 || size >= range.low.unsigned_abs())
    }
}

/// Whether a literal is one of this type.
pub(crate) fn lit_fits(simple: Simple, lit: Lit) -> bool
    ensures { result ≡ lit_fits simple lit }
{
    match lit {
        Lit::Flag(_) => matches!(simple, Simple::Bit),
        Lit::Num { negative, size } => {
            is_base(simple)
                && (!is_width(width(simple)) || is_in(own_range(simple), negative, size))
        }
    }
}

fn lit_wrong(first: Option<Wrong>, at: Place, simple: Simple, lit: Lit) -> Option<Wrong>
    ensures { result ≡ earlier first (found (lit_wrongs at simple lit)) }
{
    told_if(
        first,
        !lit_fits(simple, lit),
        at,
        Rule::Literals,
        CheckWhy::ConstRange,
    )
}

/// A field whose literal isn't of its type.
pub(crate) fn field_literal(first: Option<Wrong>, field: &Field) -> Option<Wrong>
    ensures { result ≡ earlier first (found (field_literal field.now)) }
{
    match &field.body {
        Body::Const(simple, lit) => lit_wrong(first, field.place, *simple, *lit),
        Body::Reserved(simple, lit) => lit_wrong(first, field.place, *simple, *lit),
        Body::Padding(simple, lit, _) => lit_wrong(first, field.place, *simple, *lit),
        _ => first,
    }
}

// Constants of an enum, with their attributes.

fn attr_fits(simple: Option<Simple>, lit: Lit) -> bool
    ensures { result ≡ attr_fits simple lit }
{
    match simple {
        Some(simple) => lit_fits(simple, lit),
        None => true,
    }
}

fn attrs_fit(d: &Description, params: &[Param], attrs: &[Lit]) -> bool
    ensures { result ≡ attrs_fit d.now params.now attrs.now }
{
    for (i, lit) in attrs.iter().enumerate() {
        let Some(param) = at(params, i) else {
            return false;
        };
        if !attr_fits(ref_simple(d, &param.kind), *lit) {
            return false;
        }
    }
    true
}

/// A constant whose number isn't of its enum's base, or an attribute not of its parameter's type.
pub(crate) fn constant_wrong(
    d: &Description,
    first: Option<Wrong>,
    base: Simple,
    params: &[Param],
    constant: &Constant,
) -> Option<Wrong>
    ensures { result ≡ earlier first (found (constant_wrongs d.now base params.now constant.now)) }
{
    let value = constant.value;
    let attrs = constant.attrs.as_slice();
    told_when(
        first,
        constant.place,
        Rule::Literals,
        CheckWhy::ConstRange,
        || !(lit_fits(base, value) && attrs_fit(d, params, attrs)),
    )
}
