//! What is wrong with the types of fields, parameters and enums.

ghost use Rattle.std.specs.Prelude.{◌≡◌, ◌%◌, ◌==◌, find, not};
ghost use Rattle.std.specs.Option.{option_copied};
ghost use Rattle.std.specs.Str.{bytes_eq};
ghost use Rattle.mspec_tree.specs.declared.fields.Field.{out-Field};
ghost use Rattle.mspec_expr.specs.Kinds.{is_width, layer, ref_simple};
ghost use Rattle.mspec_rules.specs.Wrongs.{earlier, found, wrong};
ghost use Rattle.mspec_rules.specs.Types.{base_wrongs, body_ref, body_simple, def_of, field_count, field_kind, field_order, field_width, has_width, is_base, is_data_io, is_enum, is_float, is_little, is_whole, miscounts, named_kind, number_type, param_wrongs, ref_count, ref_kind, ref_width_wrong, simple_kind, simple_width, stands, takes_count, takes_groups};

use crate::wrongs::{CheckWhy, Rule, Wrong, matters, told_if, told_when};
use mspec_expr::{ExprWhy, Target, is_named, target_named, width};
use mspec_tree::{Body, ByteOrder, Def, DefBody, Description, Field, Param, Place, Ref, Simple};

/// The first definition of this name.
pub(crate) fn def_of<'a>(d: &'a Description, name: &[u8]) -> Option<&'a Def>
    ensures { option_copied result ≡ def_of d.now name.now }
{
    d.defs
        .as_slice()
        .iter()
        .find(|def| is_named(&def.name, name))
}

/// The type of a field that is written with its own word, where nothing else may stand.
pub(crate) fn body_simple(field: &Field) -> Option<Simple>
    ensures { result ≡ body_simple (layer field.now) }
{
    match &field.body {
        Body::Const(simple, _) => Some(*simple),
        Body::Reserved(simple, _) => Some(*simple),
        Body::Checksum(simple, _) => Some(*simple),
        Body::Padding(simple, ..) => Some(*simple),
        _ => None,
    }
}

/// The type of a field that may be named.
pub(crate) fn body_ref(field: &Field) -> Option<&Ref>
    ensures { option_copied result ≡ body_ref (layer field.now) }
{
    match &field.body {
        Body::Simple(kind) => Some(kind),
        Body::Discriminator(kind) => Some(kind),
        Body::Implicit(kind, _) => Some(kind),
        Body::Virtual(kind, _) => Some(kind),
        Body::Optional(kind, _) => Some(kind),
        Body::CountArray(kind, _) => Some(kind),
        Body::LengthArray(kind, _) => Some(kind),
        _ => None,
    }
}

fn takes_groups(field: &Field) -> bool
    ensures { result ≡ takes_groups (layer field.now) }
{
    matches!(
        &field.body,
        Body::Simple(_) | Body::Optional(..) | Body::CountArray(..) | Body::LengthArray(..)
    )
}

/// The type of the numbers of a type, where it has numbers.
pub(crate) fn ref_simple(d: &Description, kind: &Ref) -> Option<Simple>
    ensures { result ≡ ref_simple d.now kind.now }
{
    match kind {
        Ref::Plain(simple) => Some(*simple),
        Ref::Named { name, .. } => match target_named(d, name.as_slice()) {
            Target::Enum { base, .. } => Some(base),
            Target::Group(_) => None,
        },
    }
}

// Which types stand in which places.

fn stands(groups: bool, body: &DefBody) -> bool
    ensures { result ≡ stands groups body.now }
{
    if groups {
        !matches!(body, DefBody::DataIo(_))
    } else {
        matches!(body, DefBody::Enum(..))
    }
}

/// The least that may be told of a type at a place.
fn mismatch_at(place: Place) -> Wrong
    ensures { result ≡ wrong place Rule.Types (CheckWhy.Expr ExprWhy.KindMismatch) }
{
    Wrong {
        place,
        rule: Rule::Types,
        why: CheckWhy::Expr(ExprWhy::KindMismatch),
    }
}

fn named_kind(first: Option<Wrong>, groups: bool, place: Place, def: Option<&Def>) -> Option<Wrong>
    ensures { result ≡ earlier first (found (named_kind groups place (option_copied def.entry))) }
{
    match def {
        None => told_if(first, true, place, Rule::Types, CheckWhy::UnknownType),
        Some(def) => told_if(
            first,
            !stands(groups, &def.body),
            place,
            Rule::Types,
            CheckWhy::Expr(ExprWhy::KindMismatch),
        ),
    }
}

fn simple_kind(first: Option<Wrong>, groups: bool, at: Place, simple: Simple) -> Option<Wrong>
    ensures { result ≡ earlier first (found (simple_kind groups at simple)) }
{
    let wrong = !groups && matches!(simple, Simple::Float(_));
    told_if(
        first,
        wrong,
        at,
        Rule::Types,
        CheckWhy::Expr(ExprWhy::KindMismatch),
    )
}

fn ref_kind(
    d: &Description,
    first: Option<Wrong>,
    groups: bool,
    at: Place,
    kind: &Ref,
) -> Option<Wrong>
    ensures { result ≡ earlier first (found (ref_kind d.now groups at kind.now)) }
{
    match kind {
        Ref::Plain(simple) => simple_kind(first, groups, at, *simple),
        Ref::Named { place, name, .. } => {
            if !matters(first, mismatch_at(*place)) {
                return first;
            }
            named_kind(first, groups, *place, def_of(d, name.as_slice()))
        }
    }
}

/// A field whose type has no definition, or can't stand there.
pub(crate) fn field_kind(d: &Description, first: Option<Wrong>, field: &Field) -> Option<Wrong>
    ensures { result ≡ earlier first (found (field_kind d.now field.now)) }
{
    let own = match body_simple(field) {
        Some(simple) => simple_kind(first, false, field.place, simple),
        None => first,
    };
    match body_ref(field) {
        Some(kind) => ref_kind(d, own, takes_groups(field), field.place, kind),
        None => own,
    }
}

// Widths.

pub(crate) fn is_width(bits: u8) -> bool
    ensures { result ≡ is_width bits }
{
    bits >= 1 && bits <= 64
}

fn has_width(simple: Simple) -> bool
    ensures { result ≡ has_width simple }
{
    match simple {
        Simple::Bit | Simple::Byte => true,
        Simple::Uint(bits) | Simple::Int(bits) => is_width(bits),
        Simple::Float(bits) => bits == 16 || bits == 32 || bits == 64,
    }
}

fn simple_width(first: Option<Wrong>, at: Place, simple: Simple) -> Option<Wrong>
    ensures { result ≡ earlier first (found (simple_width at simple)) }
{
    told_if(
        first,
        !has_width(simple),
        at,
        Rule::Widths,
        CheckWhy::WidthRange,
    )
}

fn ref_width(first: Option<Wrong>, at: Place, kind: &Ref) -> Option<Wrong>
    ensures { result ≡ earlier first (found (ref_width_wrong at kind.now)) }
{
    match kind {
        Ref::Plain(simple) => simple_width(first, at, *simple),
        Ref::Named { .. } => first,
    }
}

/// A field of a width that its type doesn't have.
pub(crate) fn field_width(first: Option<Wrong>, field: &Field) -> Option<Wrong>
    ensures { result ≡ earlier first (found (field_width field.now)) }
{
    let own = match body_simple(field) {
        Some(simple) => simple_width(first, field.place, simple),
        None => first,
    };
    match body_ref(field) {
        Some(kind) => ref_width(own, field.place, kind),
        None => own,
    }
}

pub(crate) fn is_base(simple: Simple) -> bool
    ensures { result ≡ is_base simple }
{
    matches!(simple, Simple::Byte | Simple::Uint(_) | Simple::Int(_))
}

#[tactic(auto, using(crate::specs::Found::found_then))]
/// An enum whose numbers have a type that they can't have.
pub(crate) fn base_wrong(first: Option<Wrong>, at: Place, base: Simple) -> Option<Wrong>
    ensures { result ≡ earlier first (found (base_wrongs at base)) }
{
    let kind = told_if(
        first,
        !is_base(base),
        at,
        Rule::Widths,
        CheckWhy::Expr(ExprWhy::KindMismatch),
    );
    simple_width(kind, at, base)
}

// The order of bytes.

fn number_type(d: &Description, field: &Field) -> Option<Simple>
    ensures { result ≡ number_type d.now (layer field.now) }
{
    if let Some(simple) = body_simple(field) {
        return Some(simple);
    }
    match body_ref(field) {
        Some(kind) => ref_simple(d, kind),
        None => None,
    }
}

fn is_little(order: Option<ByteOrder>) -> bool
    ensures { result ≡ is_little order }
{
    matches!(order, Some(ByteOrder::Little))
}

fn is_whole(simple: Option<Simple>) -> bool
    ensures { result ≡ is_whole simple }
{
    match simple {
        Some(simple) => width(simple) % 8 == 0,
        None => true,
    }
}

/// A field with the least significant byte first, whose number isn't whole bytes.
pub(crate) fn field_order(d: &Description, first: Option<Wrong>, field: &Field) -> Option<Wrong>
    ensures { result ≡ earlier first (found (field_order d.now field.now)) }
{
    told_when(
        first,
        field.place,
        Rule::Orders,
        CheckWhy::LittleWidth,
        || is_little(field.order) && !is_whole(number_type(d, field)),
    )
}

// Arguments.

fn takes_count(def: &Def) -> usize
    ensures { result ≡ takes_count def.now def.now.body }
{
    match &def.body {
        DefBody::Enum(..) => 0,
        _ => def.params.len(),
    }
}

/// Whether a type of this name takes another number.
fn miscounts(def: Option<&Def>, args: usize) -> bool
    ensures { result ≡ miscounts args (option_copied def.entry) }
{
    match def {
        Some(def) => args != takes_count(def),
        None => false,
    }
}

fn ref_count(d: &Description, first: Option<Wrong>, kind: &Ref) -> Option<Wrong>
    ensures { result ≡ earlier first (found (ref_count d.now kind.now)) }
{
    match kind {
        Ref::Plain(_) => first,
        Ref::Named { place, name, args } => {
            let name = name.as_slice();
            let count = args.len();
            told_when(
                first,
                *place,
                Rule::Arguments,
                CheckWhy::Arguments,
                || miscounts(def_of(d, name), count),
            )
        }
    }
}

/// A field whose type gets another number of arguments than it takes.
pub(crate) fn field_count(d: &Description, first: Option<Wrong>, field: &Field) -> Option<Wrong>
    ensures { result ≡ earlier first (found (field_count d.now field.now)) }
{
    match body_ref(field) {
        Some(kind) => ref_count(d, first, kind),
        None => first,
    }
}

#[tactic(auto, using(crate::specs::Found::found_then))]
/// A parameter whose type has no definition, can't stand there, or has no such width.
pub(crate) fn param_wrong(d: &Description, first: Option<Wrong>, param: &Param) -> Option<Wrong>
    ensures { result ≡ earlier first (found (param_wrongs d.now param.now)) }
{
    let kind = ref_kind(d, first, false, param.place, &param.kind);
    ref_width(kind, param.place, &param.kind)
}
