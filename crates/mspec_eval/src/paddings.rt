//! How many numbers an unset padding has.

ghost use Rattle.std.specs.Prelude.{◌≡◌, ◌≤◌};
ghost use Rattle.std.specs.List.{list_all};
ghost use Rattle.mspec_expr.specs.Kinds.{in_range};
ghost use Rattle.mspec_expr.specs.Sizes.{is_within, padding_count};
ghost use Rattle.mspec_eval.specs.Views.{pair_of, seen_of, visible_in};
ghost use Rattle.node_tree.specs.declared.nodes.Node.{out-Node};

use crate::evaluating::{LEVELS, number};
use crate::views::Before;
use mspec_expr::{Meant, Range, base_of, field_meant, is_named, own_range};
use mspec_tree::{Description, Expr, Field};
use node_tree::Node;

/// No value has more nodes than this.
const NODE_LIMIT: usize = 16_777_216;

/// The fields before a padding with their entries, the last one first.
#[derive(Clone, Copy)]
pub(crate) enum Visible<'a> {
    Nothing,
    More {
        field: &'a Field,
        node: &'a Node,
        rest: &'a Visible<'a>,
    },
}

/// The last field of this name.
pub(crate) fn visible_named<'a>(names: &Visible<'a>, name: &[u8]) -> Option<(&'a Field, &'a Node)>
    ensures { pair_of result ≡ visible_in names.now name.now }
{
    match names {
        Visible::Nothing => None,
        Visible::More { field, node, rest } => {
            if is_named(&field.name, name) {
                Some((field, node))
            } else {
                visible_named(rest, name)
            }
        }
    }
}

fn is_in(range: Range, number: i128) -> bool
    ensures { result ≡ in_range range number }
{
    range.low <= number && number <= range.high
}

/// Whether a number is of its range, and a count no greater than the greatest.
fn is_within(d: &Description, meant: Meant, node: &Node) -> bool
    ensures { result ≡ is_within d.now meant (out-Node node.now) }
{
    match (meant, node) {
        (Meant::Number(range), Node::Num(number)) => is_in(range, *number),
        (Meant::EnumOf(def), Node::Num(number)) => is_in(own_range(base_of(d, def)), *number),
        (_, Node::List(items)) => items.len() <= NODE_LIMIT,
        (_, Node::Blob(bytes)) => bytes.len() <= NODE_LIMIT,
        _ => true,
    }
}

/// Whether all that a padding sees is.
fn are_within(d: &Description, names: &Visible<'_>) -> bool
    ensures { result ≡ list_all (λ seen. is_within d.now seen.meant (out-Node seen.node)) (seen_of d.now names.now) }
{
    match names {
        Visible::Nothing => true,
        Visible::More { field, node, rest } => {
            is_within(d, field_meant(d, field), node) && are_within(d, rest)
        }
    }
}

/// The count that a padding's expression gives, 0 where it gives none.
pub(crate) fn padding_count(d: &Description, names: &Visible<'_>, last: bool, count: &Expr) -> usize
    ensures value { result ≡ padding_count d.now (seen_of d.now names.now) last count.now }
    ensures bound { result ≤ 65535 }
{
    if !are_within(d, names) {
        return 0;
    }
    let view = Before { d, names, last };
    match number(d, &view, count, LEVELS) {
        Ok(found) if 0 <= found && found <= 65_535 => found as usize,
        _ => 0,
    }
}
