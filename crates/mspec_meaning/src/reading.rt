ghost use Rattle.std.specs.Prelude.{◌≡◌, ◌*◌, pos, List, IfOk, IfErr, Ok, Err};
ghost use Rattle.node_tree.specs.Bits.{bits_of};
ghost use Rattle.node_tree.specs.declared.nodes.Node.TheVariants.{Num};
ghost use Rattle.mspec_tree.specs.declared.fields.Body.{out-Body};
ghost use Rattle.mspec_tree.specs.declared.fields.Field.{out-Field};
ghost use Rattle.mspec_tree.specs.declared.defs.DefBody.TheVariants.{Plain as PlainFields};
ghost use Rattle.mspec_meaning.specs.Plain.{IsPlainField, HasWidth, ArePlain, HasPlainFields, CanRead};
ghost use Rattle.mspec_meaning.specs.Reads.{Reads, FieldsRead, Part, group_of};
ghost use Rattle.mspec_meaning.specs.Faults.{OfFault};

use crate::numbers::{number_at, order_of};
use mspec_tree::{Body, ByteOrder, DefBody, Description, Field, Ref, Simple};
use node_tree::{Node, NodeList, ReadFault, Reading, Span, SpanList};
use std::alloc::Global;

fn width_of(field: &Field) -> u8
    requires { IsPlainField field.now }
    ensures { HasWidth (out-Body (out-Field field.now).body) result }
{
    match &field.body {
        Body::Simple(Ref::Plain(Simple::Uint(width))) => *width,
        _ => unreachable!(),
    }
}

fn fields_of(body: &DefBody) -> &[Field]
    requires { HasPlainFields body.now }
    ensures fields { body.now ≡ PlainFields result.now }
    ensures plain { ArePlain result.now }
{
    match body {
        DefBody::Plain(fields) => fields.as_slice(),
        _ => unreachable!(),
    }
}

fn number_node(number: u64) -> Node
    ensures { result ≡ Num (pos number) }
{
    Node::Num(i128::from(number))
}

/// Reads fields one after another from the first bit of the bytes. `above` is their definition's order of bytes.
fn read_fields(
    alloc: Global,
    above: Option<ByteOrder>,
    fields: &[Field],
    bytes: &[u8],
) -> Result<Reading, ReadFault>
    requires { ArePlain fields.now }
    ensures found { IfOk result (λ reading. (parts : List Part)
        × FieldsRead above fields.now 0 (bits_of bytes.now) (Ok parts) × (reading ≡ group_of parts)) }
    ensures fault { IfErr result (λ e. OfFault e (λ fault.
        FieldsRead above fields.now 0 (bits_of bytes.now) (Err fault))) }
{
    let mut entries = Vec::with_capacity(alloc, fields.len())?;
    let mut spans = Vec::new(alloc);
    spans.push(Span { from: 0, to: 0 })?;
    let mut from = 0;
    for field in fields {
        let width = width_of(field);
        let order = order_of(field.order, above, width);
        let number = number_at(bytes, from, width, order)?;
        let end = from + usize::from(width / 8);
        entries.push(number_node(number))?;
        spans.push(Span {
            from: 8 * from as u32,
            to: 8 * end as u32,
        })?;
        from = end;
    }
    let bits = 8 * from as u32;
    spans[0] = Span { from: 0, to: bits };
    Ok(Reading {
        node: Node::Group {
            case: 0,
            entries: NodeList::from_vec(entries),
        },
        bits,
        spans: SpanList::from_vec(spans),
    })
}

/// Reads the definition at the place `def` at the front of the bytes. Bytes may follow the value.
///
/// The definition must be one that can be read so far, as `can_read` tells. Its fields stand one after another from
/// the first byte on, each in its own order of bytes, else in its definition's, else the most significant byte first.
/// The node is a group with case 0 that has a number for each field. `bits` and the spans are in bits, counted from
/// the value's first; the first span is the group's, and the others are the fields'.
///
/// The first field that can't be read says why there is no value: `Bad`, with `TooLong` and the bit where it begins,
/// if it would end past bit 524,280, and else `Short`, as its bytes aren't all there. `NoMemory` is want of memory.
pub fn read_plain(
    alloc: Global,
    d: &Description,
    def: u16,
    args: &[i128],
    bytes: &[u8],
) -> Result<Reading, ReadFault>
    requires { CanRead d.now def args.now }
    ensures found { IfOk result (λ reading. Reads d.now def args.now (bits_of bytes.now) (Ok reading)) }
    ensures fault { IfErr result (λ e. OfFault e (λ fault. Reads d.now def args.now (bits_of bytes.now) (Err fault))) }
{
    let _ = args;
    let found = &d.defs.as_slice()[usize::from(def)];
    read_fields(alloc, found.order, fields_of(&found.body), bytes)
}
