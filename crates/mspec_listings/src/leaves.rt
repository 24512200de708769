//! The lines of leaves and of cases. An `Err` leaves a text that begins as before.

ghost use Rattle.std.specs.Prelude.{◌≡◌, ◌++◌, codes};
ghost use Rattle.hex.specs.Hex.{encode_lower};
ghost use Rattle.node_tree.specs.Appends.{Appends};
ghost use Rattle.node_tree.specs.declared.nodes.Node.{out-Node};
ghost use Rattle.mspec_listings.specs.Listings.{Chosen, Leaf, leaf_text, line_text, raw_digits};

use itoa::{Buffer, Integer};
use node_tree::Node;
use std::alloc::AllocError;

/// Adds a number in decimal digits.
pub(crate) fn add_number<I: Integer>(out: &mut Vec<u8>, number: I) -> Result<(), AllocError>
    ensures { Appends result out.old.items out.new.items (I.text number) }
{
    let mut buffer = Buffer::new();
    out.extend_from_slice(buffer.format(number).as_bytes())
}

/// Adds bytes as pairs of small digits.
fn add_bytes(out: &mut Vec<u8>, bytes: &[u8]) -> Result<(), AllocError>
    ensures { Appends result out.old.items out.new.items (codes "0x" ++ encode_lower bytes.now) }
{
    let digits = hex::encode(*out.allocator(), bytes)?;
    out.extend_from_slice(b"0x")?;
    out.extend_from_slice(digits.as_bytes())
}

/// Adds the capital digits of raw bits, one for each four bits of their width.
fn add_raw(out: &mut Vec<u8>, bits: u64, width: u8) -> Result<(), AllocError>
    ensures { Appends result out.old.items out.new.items (codes "16#" ++ raw_digits bits width) }
{
    let digits = hex::encode_upper(*out.allocator(), bits.to_be_bytes())?;
    let left_out = 16usize.saturating_sub(usize::from(width / 4));
    let (_, kept) = digits.as_bytes().split_at(left_out);
    out.extend_from_slice(b"16#")?;
    out.extend_from_slice(kept)
}

fn add_leaf_text(out: &mut Vec<u8>, node: &Node) -> Result<(), AllocError>
    ensures { Appends result out.old.items out.new.items (leaf_text (out-Node node.now)) }
{
    match node {
        Node::Num(number) => add_number(out, *number),
        Node::Flag(true) => out.extend_from_slice(b"true"),
        Node::Flag(false) => out.extend_from_slice(b"false"),
        Node::Raw { bits, width } => add_raw(out, *bits, *width),
        Node::Blob(bytes) => add_bytes(out, bytes.as_slice()),
        Node::Unset => out.extend_from_slice(b"unset"),
        Node::Absent => out.extend_from_slice(b"absent"),
        Node::List(_) | Node::Group { .. } => Ok(()),
    }
}

/// Adds the line of a leaf.
pub(crate) fn add_leaf(out: &mut Vec<u8>, path: &[u8], node: &Node) -> Result<(), AllocError>
    ensures { Appends result out.old.items out.new.items (line_text (Leaf path.now (leaf_text (out-Node node.now)))) }
{
    out.extend_from_slice(path)?;
    out.extend_from_slice(b" = ")?;
    add_leaf_text(out, node)?;
    out.extend_from_slice(b"\n")
}

/// Adds the line of a leaf with this value.
pub(crate) fn add_line(out: &mut Vec<u8>, path: &[u8], value: &[u8]) -> Result<(), AllocError>
    ensures { Appends result out.old.items out.new.items (line_text (Leaf path.now value.now)) }
{
    out.extend_from_slice(path)?;
    out.extend_from_slice(b" = ")?;
    out.extend_from_slice(value)?;
    out.extend_from_slice(b"\n")
}

/// Adds the line of a group with a case.
pub(crate) fn add_case(out: &mut Vec<u8>, path: &[u8], case: &[u8]) -> Result<(), AllocError>
    ensures { Appends result out.old.items out.new.items (line_text (Chosen path.now case.now)) }
{
    out.extend_from_slice(path)?;
    out.extend_from_slice(b" : ")?;
    out.extend_from_slice(case)?;
    out.extend_from_slice(b"\n")
}
