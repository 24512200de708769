ghost use Rattle.std.specs.Prelude.{◌≡◌};
ghost use Rattle.node_tree.specs.Appends.{Appends};
ghost use Rattle.host_engine.specs.Listing.{line, lines, entries_of, listing};

use itoa::Buffer;
use mspec_tree::Field;
use node_tree::Node;
use std::alloc::AllocError;

/// Adds `NAME = VALUE` and a line's end. An `Err` leaves a text that begins as before.
fn add_line(text: &mut Vec<u8>, name: &[u8], node: &Node) -> Result<(), AllocError>
    ensures { Appends result text.old.items text.new.items (line name.now node.now) }
{
    text.extend_from_slice(name)?;
    text.extend_from_slice(b" = ")?;
    if let Node::Num(number) = node {
        let mut buffer = Buffer::new();
        text.extend_from_slice(buffer.format(*number).as_bytes())?;
    }
    text.extend_from_slice(b"\n")
}

/// Adds a line for each field in order.
fn add_lines(text: &mut Vec<u8>, fields: &[Field], entries: &[Node]) -> Result<(), AllocError>
    ensures { Appends result text.old.items text.new.items (lines fields.now entries.now) }
{
    for (field, entry) in fields.iter().zip(entries) {
        add_line(text, field.name.as_slice(), entry)?;
    }
    Ok(())
}

/// The entries of a group.
fn entries_of(node: &Node) -> &[Node]
    ensures { result.now ≡ entries_of node.now }
{
    match node {
        Node::Group { entries, .. } => entries.as_slice(),
        _ => &[],
    }
}

/// Adds a value of a type with these fields, and an empty line. An `Err` leaves a text that begins as before.
pub fn add_listing(text: &mut Vec<u8>, fields: &[Field], node: &Node) -> Result<(), AllocError>
    ensures { Appends result text.old.items text.new.items (listing fields.now node.now) }
{
    add_lines(text, fields, entries_of(node))?;
    text.extend_from_slice(b"\n")
}
