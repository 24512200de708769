//! What types and fields are to an expression.

ghost use Rattle.std.specs.Prelude.{◌≡◌, ◌≤◌, ◌<◌};
ghost use Rattle.mspec_expr.specs.Kinds.{base_of, body_target, field_meant, is_width, items_meant, own_range, ref_meant, signed_range, simple_meant, target_items, target_named, type_range, unsigned_range, width};

use crate::kinds::{ItemOf, Meant, Range, Target};
use crate::names::{def_at, def_named};
use crate::powers::power_of_two;
use mspec_tree::{Body, DefBody, Description, Field, Ref, Simple};

/// The range of a number that has none.
pub const NO_RANGE: Range = Range { low: 1, high: 0 };

pub fn width(simple: Simple) -> u8
    ensures { result ≡ width simple }
{
    match simple {
        Simple::Bit => 1,
        Simple::Byte => 8,
        Simple::Uint(bits) | Simple::Int(bits) | Simple::Float(bits) => bits,
    }
}

fn is_width(bits: u8) -> bool
    ensures { result ≡ is_width bits }
{
    bits >= 1 && bits <= 64
}

fn unsigned_range(bits: u8) -> Range
    requires { bits ≤ 64 }
    ensures { result ≡ unsigned_range bits }
{
    Range {
        low: 0,
        high: power_of_two(u32::from(bits)) as i128 - 1,
    }
}

fn signed_range(bits: u8) -> Range
    requires low { 1 ≤ bits }
    requires high { bits ≤ 64 }
    ensures { result ≡ signed_range bits }
{
    let half = power_of_two(u32::from(bits - 1)) as i128;
    Range {
        low: -half,
        high: half - 1,
    }
}

/// The range of a type's numbers. A width that no number may have gives none.
pub fn own_range(simple: Simple) -> Range
    ensures { result ≡ own_range simple }
{
    if !is_width(width(simple)) {
        return NO_RANGE;
    }
    match simple {
        Simple::Int(bits) => signed_range(bits),
        _ => unsigned_range(width(simple)),
    }
}

pub fn simple_meant(simple: Simple) -> Meant
    ensures { result ≡ simple_meant simple }
{
    match simple {
        Simple::Bit => Meant::Flag,
        Simple::Float(_) => Meant::Raw,
        _ => Meant::Number(own_range(simple)),
    }
}

/// What a definition's name stands for in a type's place.
pub fn target_named(d: &Description, name: &[u8]) -> Target
    ensures { result ≡ target_named d.now name.now }
{
    let Some(def) = def_named(d, name) else {
        return Target::Group(0);
    };
    match def_at(d, def) {
        Some(found) => body_target(def, &found.body),
        None => Target::Group(def),
    }
}

fn body_target(def: usize, body: &DefBody) -> Target
    ensures { result ≡ body_target def body.now }
{
    match body {
        DefBody::Enum(base, _) => Target::Enum { def, base: *base },
        _ => Target::Group(def),
    }
}

/// What a type is to an expression.
pub fn ref_meant(d: &Description, kind: &Ref) -> Meant
    ensures { result ≡ ref_meant d.now kind.now }
{
    match kind {
        Ref::Plain(simple) => simple_meant(*simple),
        Ref::Named { name, .. } => match target_named(d, name.as_slice()) {
            Target::Enum { def, .. } => Meant::EnumOf(def),
            Target::Group(def) => Meant::GroupOf { def, case: 0 },
        },
    }
}

fn target_items(counted: bool, target: Target) -> Meant
    ensures { result ≡ target_items counted target }
{
    match target {
        Target::Enum { base, .. } => Meant::ListOf(ItemOf::Bits(width(base))),
        Target::Group(def) => Meant::ListOf(ItemOf::GroupOf { def, counted }),
    }
}

/// What an array of a type is.
pub fn items_meant(d: &Description, counted: bool, kind: &Ref) -> Meant
    ensures { result ≡ items_meant d.now counted kind.now }
{
    match kind {
        Ref::Plain(Simple::Byte) => Meant::Bytes,
        Ref::Plain(simple) => Meant::ListOf(ItemOf::Bits(width(*simple))),
        Ref::Named { name, .. } => target_items(counted, target_named(d, name.as_slice())),
    }
}

/// What a field is to an expression.
pub fn field_meant(d: &Description, field: &Field) -> Meant
    ensures { result ≡ field_meant d.now field.now }
{
    match &field.body {
        Body::Simple(kind) => ref_meant(d, kind),
        Body::Discriminator(kind) => ref_meant(d, kind),
        Body::Const(simple, _) => simple_meant(*simple),
        Body::Reserved(simple, _) => simple_meant(*simple),
        Body::Implicit(kind, _) => ref_meant(d, kind),
        Body::Virtual(kind, _) => ref_meant(d, kind),
        Body::Optional(kind, _) => ref_meant(d, kind),
        Body::Checksum(simple, _) => simple_meant(*simple),
        Body::Padding(simple, ..) => Meant::ListOf(ItemOf::Bits(width(*simple))),
        Body::CountArray(kind, _) => items_meant(d, true, kind),
        Body::LengthArray(kind, _) => items_meant(d, false, kind),
        Body::Switch(..) => Meant::Null,
    }
}

/// The type of an enum's numbers.
pub fn base_of(d: &Description, def: usize) -> Simple
    ensures { result ≡ base_of d.now def }
{
    let Some(found) = def_at(d, def) else {
        return Simple::Bit;
    };
    match &found.body {
        DefBody::Enum(base, _) => *base,
        _ => Simple::Bit,
    }
}
