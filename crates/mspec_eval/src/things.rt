//! What an expression stands for.

ghost use Rattle.std.specs.Prelude.{◌≡◌};
ghost use Rattle.mspec_expr.specs.Kinds.{literal};
ghost use Rattle.mspec_expr.specs.Values.{node_count, node_number, thing_count, thing_is_absent, thing_number};
ghost use Rattle.node_tree.specs.declared.nodes.Node.{out-Node};
ghost use Rattle.mspec_expr.specs.Counted.{done};
ghost use Rattle.mspec_eval.specs.Numbers.{leaves, within};
ghost use Rattle.mspec_eval.specs.Things.{kept_outcome, thing_of, things};

use mspec_expr::Meant;
use mspec_tree::Lit;
use node_tree::{EvalFault, Node};

/// The least and the greatest number of an expression.
const LEAST: i128 = -9_223_372_036_854_775_808;

const GREATEST: i128 = 18_446_744_073_709_551_615;

/// A number; an entry of a value, with what it is; a number or a flag that the description gives; an enum itself.
#[derive(Clone, Copy)]
pub(crate) enum Thing<'a> {
    Number(i128),
    Entry(Meant, &'a Node),
    Given(Meant, i128),
    GivenFlag(Meant, bool),
    EnumName(usize),
}

/// A number that stays inside the widest range.
pub(crate) fn within(number: i128) -> Result<i128, EvalFault>
    ensures { result ≡ within number }
{
    if LEAST <= number && number <= GREATEST {
        Ok(number)
    } else {
        Err(EvalFault::NullAccess)
    }
}

/// The number of a literal.
pub(crate) fn literal(value: Lit) -> Result<i128, EvalFault>
    ensures { result ≡ within (literal value) }
{
    match value {
        Lit::Flag(flag) => Ok(i128::from(flag)),
        Lit::Num { negative, size } => {
            if size > 18_446_744_073_709_551_615 {
                Err(EvalFault::NullAccess)
            } else if negative {
                within(-(size as i128))
            } else {
                within(size as i128)
            }
        }
    }
}

fn node_number(node: &Node) -> Result<i128, EvalFault>
    ensures { result ≡ (node_number (out-Node node.now)).outcome }
{
    match node {
        Node::Num(number) => Ok(*number),
        Node::Flag(flag) => Ok(i128::from(*flag)),
        _ => Err(EvalFault::NullAccess),
    }
}

/// The number that a thing stands for; a flag counts 0 or 1.
pub(crate) fn number_of(thing: Thing<'_>) -> Result<i128, EvalFault>
    ensures { result ≡ (thing_number (thing_of thing.entry)).outcome }
{
    match thing {
        Thing::Number(number) => Ok(number),
        Thing::Entry(_, node) => node_number(node),
        Thing::Given(_, number) => Ok(number),
        Thing::GivenFlag(_, flag) => Ok(i128::from(flag)),
        Thing::EnumName(_) => Err(EvalFault::NullAccess),
    }
}

/// Whether it is a number that leaves the widest range.
fn leaves(thing: Thing<'_>) -> bool
    ensures { result ≡ leaves (thing_number (thing_of thing.entry)).outcome }
{
    match number_of(thing) {
        Ok(number) => !(LEAST <= number && number <= GREATEST),
        Err(_) => false,
    }
}

/// A thing, unless it is a number that leaves the widest range.
pub(crate) fn kept(thing: Thing<'_>) -> Result<Thing<'_>, EvalFault>
    ensures { things result ≡ kept_outcome (done (thing_of thing.entry)) }
{
    if leaves(thing) {
        return Err(EvalFault::NullAccess);
    }
    Ok(thing)
}

/// Whether it is the entry of an optional field that isn't there.
pub(crate) fn is_absent(thing: Thing<'_>) -> bool
    ensures { result ≡ thing_is_absent (thing_of thing.entry) }
{
    matches!(thing, Thing::Entry(_, Node::Absent))
}

fn node_count(node: &Node) -> Result<usize, EvalFault>
    ensures { result ≡ (node_count (out-Node node.now)).outcome }
{
    match node {
        Node::List(items) => Ok(items.len()),
        Node::Blob(bytes) => Ok(bytes.len()),
        _ => Err(EvalFault::NullAccess),
    }
}

/// How many items an array has.
pub(crate) fn count_of(thing: Thing<'_>) -> Result<usize, EvalFault>
    ensures { result ≡ (thing_count (thing_of thing.entry)).outcome }
{
    match thing {
        Thing::Entry(_, node) => node_count(node),
        _ => Err(EvalFault::NullAccess),
    }
}
