//! How many bits a value has, as it is given.

ghost use Rattle.std.specs.Prelude.{◌≡◌, ◌+◌, ◌*◌, ◌<◌, ◌==◌, ◌&&◌, length, ℕ};
ghost use Rattle.std.specs.Option.{option_copied};
ghost use Rattle.node_tree.specs.declared.nodes.Node.{out-Node};
ghost use Rattle.mspec_expr.specs.Kinds.{layer, range_width, ref_width, switch_cases};
ghost use Rattle.mspec_expr.specs.Sizes.{Measure, body_measure, entry_bits, is_seen_by_padding, items_measure, meant_measure, measure_entries, measure_fields, measure_to, padding_measure};
ghost use Rattle.mspec_eval.specs.Numbers.{capped};
ghost use Rattle.mspec_eval.specs.Views.{seen_of};

use crate::paddings::{Visible, padding_count};
use mspec_expr::{
    ItemOf, Meant, Range, Target, base_of, binary_digits, case_fields, fields_of, items_meant,
    ref_meant, target_named, width,
};
use mspec_tree::{Body, Case, Description, Expr, Field, Ref, Simple};
use node_tree::Node;

/// A value has at most as many groups in one another as nodes.
const NODE_LIMIT: u32 = 16_777_216;

/// A sum, as far as there is room.
fn plus(a: u128, b: u128) -> u128
    ensures { (x y : ℕ) → a ≡ capped x → b ≡ capped y → result ≡ capped (x + y) }
{
    a.saturating_add(b)
}

fn times(width: u8, count: usize) -> u128
    ensures { result ≡ capped (width * count) }
{
    u128::from(width) * count as u128
}

fn range_width(range: Range) -> u128
    ensures { result ≡ capped (range_width range) }
{
    u128::from(binary_digits(range.high.abs_diff(range.low)))
}

fn ref_width(d: &Description, kind: &Ref) -> u8
    ensures { result ≡ ref_width d.now kind.now }
{
    match kind {
        Ref::Plain(simple) => width(*simple),
        Ref::Named { name, .. } => match target_named(d, name.as_slice()) {
            Target::Enum { base, .. } => width(base),
            Target::Group(_) => 0,
        },
    }
}

fn padding_bits(
    d: &Description,
    names: &Visible<'_>,
    last: bool,
    simple: Simple,
    count: &Expr,
    node: &Node,
) -> u128
    ensures { result ≡ capped (padding_measure d.now (seen_of d.now names.now) last simple count.now (out-Node node.now)).bits }
{
    match node {
        Node::List(items) => times(width(simple), items.len()),
        Node::Unset => times(width(simple), padding_count(d, names, last, count)),
        _ => 0,
    }
}

/// Whether the item at this place has the last-item mark.
fn is_last(counted: bool, place: usize, items: &[Node]) -> bool
    requires { place < length items.now }
    ensures { result ≡ (counted && place + 1 == length items.now) }
{
    counted && place + 1 == items.len()
}

/// Items that are groups; in an array by count the last one has the last-item mark.
#[cycle(sizes)]
fn items_bits(d: &Description, def: usize, counted: bool, items: &[Node], levels: u32) -> u128
    ensures { result ≡ capped (items_measure (measure_to levels d.now) def counted items.now).bits }
{
    let mut sum = 0u128;
    for (place, item) in items.iter().enumerate() {
        let last = is_last(counted, place, items);
        sum = plus(sum, group_bits(d, def, last, item, levels));
    }
    sum
}

/// An entry, by what it is.
#[cycle(sizes)]
fn meant_bits(d: &Description, meant: Meant, node: &Node, levels: u32) -> u128
    ensures { result ≡ capped (meant_measure d.now (measure_to levels d.now) meant node.now).bits }
{
    match (meant, node) {
        (Meant::Number(range), Node::Num(_)) => range_width(range),
        (Meant::Flag, Node::Flag(_)) => 1,
        (Meant::EnumOf(def), Node::Num(_)) => u128::from(width(base_of(d, def))),
        (Meant::Raw, Node::Raw { width, .. }) => u128::from(*width),
        (Meant::GroupOf { def, .. }, Node::Group { .. }) => group_bits(d, def, false, node, levels),
        (Meant::ListOf(ItemOf::Bits(bits)), Node::List(items)) => times(bits, items.len()),
        (Meant::ListOf(ItemOf::GroupOf { def, counted }), Node::List(items)) => {
            items_bits(d, def, counted, items.as_slice(), levels)
        }
        (Meant::Bytes, Node::Blob(bytes)) => times(8, bytes.len()),
        _ => 0,
    }
}

/// An entry of a field.
#[cycle(sizes)]
fn body_bits(
    d: &Description,
    names: &Visible<'_>,
    last: bool,
    field: &Field,
    node: &Node,
    levels: u32,
) -> u128
    ensures { result ≡ capped (body_measure d.now (measure_to levels d.now) (seen_of d.now names.now) last (layer field.now) node.now).bits }
{
    match &field.body {
        Body::Simple(kind) => meant_bits(d, ref_meant(d, kind), node, levels),
        Body::Discriminator(kind) => meant_bits(d, ref_meant(d, kind), node, levels),
        Body::Optional(kind, _) => meant_bits(d, ref_meant(d, kind), node, levels),
        Body::Const(simple, _) => u128::from(width(*simple)),
        Body::Reserved(simple, _) => u128::from(width(*simple)),
        Body::Checksum(simple, _) => u128::from(width(*simple)),
        Body::Implicit(kind, _) => u128::from(ref_width(d, kind)),
        Body::Padding(simple, _, count) => padding_bits(d, names, last, *simple, count, node),
        Body::CountArray(kind, _) => meant_bits(d, items_meant(d, true, kind), node, levels),
        Body::LengthArray(kind, _) => meant_bits(d, items_meant(d, false, kind), node, levels),
        Body::Virtual(..) | Body::Switch(..) => 0,
    }
}

/// Whether paddings see the field.
fn is_seen(field: &Field) -> bool
    ensures { result ≡ is_seen_by_padding (layer field.now) }
{
    matches!(
        &field.body,
        Body::Simple(_) | Body::Discriminator(_) | Body::CountArray(..) | Body::LengthArray(..)
    )
}

/// The cases of a switch.
fn switch_cases(field: &Field) -> Option<&[Case]>
    ensures { option_copied result ≡ switch_cases (layer field.now) }
{
    match &field.body {
        Body::Switch(_, cases) => Some(cases.as_slice()),
        _ => None,
    }
}

/// The entries of a case, behind so many bits.
#[cycle(sizes)]
fn entries_bits<'x>(
    d: &Description,
    names: &'x Visible<'x>,
    last: bool,
    fields: &'x [Field],
    nodes: &'x [Node],
    levels: u32,
    sum: u128,
) -> u128
    ensures { (before : Measure) → sum ≡ capped before.bits → result ≡ capped (measure_entries d.now (measure_to levels d.now) last fields.now (record { left = nodes.now; names = seen_of d.now names.now; sum = before })).sum.bits }
{
    let Some((field, fields)) = fields.split_first() else {
        return sum;
    };
    let Some((node, nodes)) = nodes.split_first() else {
        return sum;
    };
    let sum = plus(sum, body_bits(d, names, last, field, node, levels));
    if !is_seen(field) {
        return entries_bits(d, names, last, fields, nodes, levels, sum);
    }
    let more = Visible::More {
        field,
        node,
        rest: names,
    };
    entries_bits(d, &more, last, fields, nodes, levels, sum)
}

/// The entries of a group, behind so many bits. Behind a switch its case's fields aren't seen.
#[cycle(sizes)]
fn fields_bits<'x>(
    d: &Description,
    names: &'x Visible<'x>,
    last: bool,
    case: usize,
    fields: &'x [Field],
    nodes: &'x [Node],
    levels: u32,
    sum: u128,
) -> u128
    ensures { (before : Measure) → sum ≡ capped before.bits → result ≡ capped (measure_fields d.now (measure_to levels d.now) last case fields.now (record { left = nodes.now; names = seen_of d.now names.now; sum = before })).sum.bits }
{
    let Some((field, fields)) = fields.split_first() else {
        return sum;
    };
    if let Some(cases) = switch_cases(field) {
        let inner = case_fields(case, cases);
        let sum = entries_bits(d, names, last, inner, nodes, levels, sum);
        let nodes = &nodes[inner.len().min(nodes.len())..];
        return fields_bits(d, names, last, case, fields, nodes, levels, sum);
    }
    let Some((node, nodes)) = nodes.split_first() else {
        return sum;
    };
    let sum = plus(sum, body_bits(d, names, last, field, node, levels));
    if !is_seen(field) {
        return fields_bits(d, names, last, case, fields, nodes, levels, sum);
    }
    let more = Visible::More {
        field,
        node,
        rest: names,
    };
    fields_bits(d, &more, last, case, fields, nodes, levels, sum)
}

/// A value of the definition at a place, by its last-item mark.
#[cycle(sizes)]
fn group_bits(d: &Description, def: usize, last: bool, node: &Node, levels: u32) -> u128
    ensures { result ≡ capped (measure_to levels d.now def last node.now).bits }
{
    if levels == 0 {
        return 0;
    }
    let Node::Group { case, entries } = node else {
        return 0;
    };
    let nothing = Visible::Nothing;
    fields_bits(
        d,
        &nothing,
        last,
        usize::from(*case),
        fields_of(d, def),
        entries.as_slice(),
        levels - 1,
        0,
    )
}

/// How many bits an entry has, by what it is, as it is given; at most 2^128 - 1. Unset paddings have as many numbers as their
/// expressions say. It takes no memory.
pub fn entry_bits(d: &Description, meant: Meant, node: &Node) -> u128
    ensures { result ≡ capped (entry_bits d.now meant node.now) }
{
    meant_bits(d, meant, node, NODE_LIMIT)
}
