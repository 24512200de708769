//! What stands behind a dot, and values taken as one of a case.

ghost use Rattle.std.specs.Prelude.{◌≡◌, find, if◌then◌else◌, slice_get};
ghost use Rattle.std.specs.Ordering.{int_eq};
ghost use Rattle.mspec_expr.specs.Kinds.{case_name, constants_of, entry_fields, entry_fields_in, layer, literal, literal_node, params_of};
ghost use Rattle.mspec_expr.specs.Values.{Entry, attribute_of, attributes, cast, cast_entry, constant_of, dotted, dotted_entry, entry_named};
ghost use Rattle.mspec_eval.specs.Things.{kept_outcome, thing_of, things};
ghost use Rattle.mspec_eval.specs.Views.{pair_of};
ghost use Rattle.std.specs.Str.{bytes_eq};
ghost use Rattle.mspec_expr.specs.Counted.{done};
ghost use Rattle.node_tree.specs.declared.nodes.Node.{out-Node};

use crate::things::{Thing, kept, literal};
use mspec_expr::{
    Meant, case_fields, constant_named, constants_of, field_meant, fields_of, first_cases,
    is_named, params_of, ref_meant,
};
use mspec_tree::{Body, Case, Constant, Description, Field, Lit};
use node_tree::{EvalFault, Node};
use sqlite_items::at;

/// The fields that have entries: those of the case at a switch's place, else the field itself.
pub(crate) fn entry_fields_in(case: usize, field: &Field) -> &[Field]
    ensures { result.now ≡ entry_fields_in case field.now (layer field.now) }
{
    match &field.body {
        Body::Switch(_, cases) => case_fields(case, cases.as_slice()),
        _ => std::slice::from_ref(field),
    }
}

fn entry_among<'a>(
    fields: &'a [Field],
    nodes: &'a [Node],
    name: &[u8],
) -> Option<(&'a Field, &'a Node)>
    ensures { pair_of result ≡ entry_named fields.now nodes.now name.now }
{
    let (field, fields) = fields.split_first()?;
    let (node, nodes) = nodes.split_first()?;
    if is_named(&field.name, name) {
        Some((field, node))
    } else {
        entry_among(fields, nodes, name)
    }
}

/// The entry that a group has for a name.
fn entry_named<'a>(
    fields: &'a [Field],
    case: usize,
    nodes: &'a [Node],
    name: &[u8],
) -> Option<(&'a Field, &'a Node)>
    ensures { pair_of result ≡ entry_named (entry_fields case fields.now) nodes.now name.now }
{
    let (field, fields) = fields.split_first()?;
    let own = entry_fields_in(case, field);
    let found = entry_among(own, nodes, name);
    if found.is_some() {
        return found;
    }
    entry_named(fields, case, &nodes[own.len().min(nodes.len())..], name)
}

/// Whether a literal is this number.
fn is_number(value: Lit, number: i128) -> bool
    ensures { result ≡ int_eq (literal value) number }
{
    match value {
        Lit::Flag(flag) => i128::from(flag) == number,
        Lit::Num { negative, size } => {
            let side = if negative { number <= 0 } else { number >= 0 };
            side && number.unsigned_abs() == size
        }
    }
}

/// The attribute at this place that a constant gives to a number.
fn constant_attribute(constant: &Constant, number: i128, place: usize) -> Option<Lit>
    ensures { result ≡ (if int_eq (literal constant.now.value) number then slice_get constant.now.attrs place else None) }
{
    if is_number(constant.value, number) {
        constant.attrs.get(place).copied()
    } else {
        None
    }
}

/// The attribute at this place of the first constant that gives the number one.
fn first_attribute(constants: &[Constant], number: i128, place: usize) -> Option<Lit>
    ensures { result ≡ slice_get (attributes place number constants.now) 0 }
{
    for constant in constants {
        if let Some(value) = constant_attribute(constant, number, place) {
            return Some(value);
        }
    }
    None
}

/// An attribute as a thing.
fn given(meant: Meant, value: Lit) -> Result<Thing<'static>, EvalFault>
    ensures { things result ≡ kept_outcome (done (Entry meant (literal_node value))) }
{
    match value {
        Lit::Flag(flag) => Ok(Thing::GivenFlag(meant, flag)),
        Lit::Num { .. } => Ok(Thing::Given(meant, literal(value)?)),
    }
}

/// The attribute of this name that a number of an enum has.
fn attribute_of(
    d: &Description,
    def: usize,
    number: i128,
    name: &[u8],
) -> Result<Thing<'static>, EvalFault>
    ensures { things result ≡ kept_outcome (attribute_of d.now def number name.now (params_of d.now def) 0) }
{
    for (place, param) in params_of(d, def).iter().enumerate() {
        if is_named(&param.name, name) {
            return match first_attribute(constants_of(d, def), number, place) {
                Some(value) => given(ref_meant(d, &param.kind), value),
                None => Err(EvalFault::EnumAttr),
            };
        }
    }
    Err(EvalFault::EnumAttr)
}

/// A constant of an enum as a thing.
fn constant_of(d: &Description, def: usize, name: &[u8]) -> Result<Thing<'static>, EvalFault>
    ensures { things result ≡ kept_outcome (constant_of def (find (λ constant. bytes_eq constant.name name.now) (constants_of d.now def))) }
{
    match constant_named(constants_of(d, def), name) {
        Some(constant) => Ok(Thing::Given(Meant::EnumOf(def), literal(constant.value)?)),
        None => Err(EvalFault::EnumAttr),
    }
}

/// A field of a group, or an attribute of a number of an enum.
fn dotted_entry<'a>(
    d: &'a Description,
    meant: Meant,
    node: &'a Node,
    name: &[u8],
) -> Result<Thing<'a>, EvalFault>
    ensures { things result ≡ kept_outcome (dotted_entry d.now meant (out-Node node.now) name.now) }
{
    match (meant, node) {
        (Meant::GroupOf { def, .. }, Node::Group { case, entries }) => {
            match entry_named(
                fields_of(d, def),
                usize::from(*case),
                entries.as_slice(),
                name,
            ) {
                Some((field, inner)) => kept(Thing::Entry(field_meant(d, field), inner)),
                None => Err(EvalFault::NullAccess),
            }
        }
        (Meant::EnumOf(def), Node::Num(number)) => attribute_of(d, def, *number, name),
        _ => Err(EvalFault::NullAccess),
    }
}

/// What a name behind a dot stands for.
pub(crate) fn dotted<'a>(
    d: &'a Description,
    thing: Thing<'a>,
    name: &[u8],
) -> Result<Thing<'a>, EvalFault>
    ensures { things result ≡ kept_outcome (dotted d.now name.now (thing_of thing.entry)) }
{
    match thing {
        Thing::Entry(meant, node) => dotted_entry(d, meant, node, name),
        Thing::Given(Meant::EnumOf(def), number) => attribute_of(d, def, number, name),
        Thing::EnumName(def) => constant_of(d, def, name),
        _ => Err(EvalFault::NullAccess),
    }
}

/// The name of the case of this number, from 1.
fn case_name(case: usize, cases: &[Case]) -> &[u8]
    ensures { result.now ≡ case_name case cases.now }
{
    if case == 0 {
        return b"";
    }
    match at(cases, case - 1) {
        Some(found) => found.name.as_slice(),
        None => b"",
    }
}

fn cast_group<'a>(
    d: &Description,
    def: usize,
    node: &'a Node,
    name: &[u8],
) -> Result<Thing<'a>, EvalFault>
    ensures { things result ≡ (cast_entry d.now def node.now (out-Node node.now) name.now).outcome }
{
    let Node::Group { case, .. } = node else {
        return Err(EvalFault::NullAccess);
    };
    let case = usize::from(*case);
    if case_name(case, first_cases(fields_of(d, def))) != name {
        return Err(EvalFault::CastFails);
    }
    Ok(Thing::Entry(Meant::GroupOf { def, case }, node))
}

/// A value as one of the case of this name.
pub(crate) fn cast<'a>(
    d: &Description,
    thing: Thing<'a>,
    name: &[u8],
) -> Result<Thing<'a>, EvalFault>
    ensures { things result ≡ kept_outcome (cast d.now name.now (thing_of thing.entry)) }
{
    match thing {
        Thing::Entry(Meant::GroupOf { def, .. }, node) => cast_group(d, def, node, name),
        _ => Err(EvalFault::NullAccess),
    }
}
