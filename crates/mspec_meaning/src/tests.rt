use crate::{can_read, read_plain};
use mspec_tree::{
    Body, ByteOrder, Def, DefBody, Description, Field, FieldList, Param, ParamList, Place, Ref,
    Simple,
};
use node_tree::{Node, ReadFault, ReadWhy, Reading, Span};
use sqlite_items::Items;
use std::alloc::{AllocError, Global};
use std::test::Fail;

const NO_PLACE: Place = Place { line: 1, column: 1 };

/// A field of an unsigned number.
#[derive(Clone, Copy)]
struct Number {
    width: u8,
    order: Option<ByteOrder>,
}

const BYTE: Number = Number {
    width: 8,
    order: None,
};

const WORD: Number = Number {
    width: 16,
    order: None,
};

const LONG: Number = Number {
    width: 64,
    order: None,
};

const BIG_WORD: Number = Number {
    width: 16,
    order: Some(ByteOrder::Big),
};

const LITTLE_WORD: Number = Number {
    width: 16,
    order: Some(ByteOrder::Little),
};

const TWELVE_BITS: Number = Number {
    width: 12,
    order: None,
};

/// A type of such fields, with so many parameters.
#[derive(Clone, Copy)]
struct Form {
    fields: &'static [Number],
    order: Option<ByteOrder>,
    params: usize,
}

const PLAIN: Form = Form {
    fields: &[BYTE, WORD],
    order: None,
    params: 0,
};

fn fields_of(alloc: Global, numbers: &[Number]) -> Result<FieldList, AllocError> {
    let mut fields = Items::new(alloc);
    for number in numbers {
        fields.push(Field {
            place: NO_PLACE,
            named: NO_PLACE,
            name: Items::from_slice(alloc, b"x")?,
            order: number.order,
            body: Body::Simple(Ref::Plain(Simple::Uint(number.width))),
        })?;
    }
    Ok(fields)
}

fn params_of(alloc: Global, count: usize) -> Result<ParamList, AllocError> {
    let mut params = Items::new(alloc);
    for _ in 0..count {
        params.push(Param {
            place: NO_PLACE,
            kind: Ref::Plain(Simple::Uint(8)),
            name: Items::from_slice(alloc, b"p")?,
        })?;
    }
    Ok(params)
}

/// The description of one type.
fn description_of(alloc: Global, form: &Form) -> Result<Description, AllocError> {
    let fields = fields_of(alloc, form.fields)?;
    describe(alloc, fields, form.order, form.params)
}

/// The description of a type of so many fields of one kind.
fn repeated(alloc: Global, number: Number, count: usize) -> Result<Description, AllocError> {
    let fields = fields_of(alloc, &vec![in alloc; number; count]?)?;
    describe(alloc, fields, None, 0)
}

fn describe(
    alloc: Global,
    fields: FieldList,
    order: Option<ByteOrder>,
    params: usize,
) -> Result<Description, AllocError> {
    let mut defs = Items::new(alloc);
    defs.push(Def {
        place: NO_PLACE,
        named: NO_PLACE,
        name: Items::from_slice(alloc, b"B")?,
        params: params_of(alloc, params)?,
        order,
        body: DefBody::Plain(fields),
    })?;
    Ok(Description { defs })
}

/// What bytes give by the one type of a description, if it can be read.
fn read(alloc: Global, d: &Description, bytes: &[u8]) -> Option<Result<Reading, ReadFault>> {
    if can_read(d, 0, &[]) {
        Some(read_plain(alloc, d, 0, &[], bytes))
    } else {
        None
    }
}

/// The entries of a type's value.
fn entries_of(reading: &Reading) -> Option<&[Node]> {
    match &reading.node {
        Node::Group { case: 0, entries } => Some(entries.as_slice()),
        _ => None,
    }
}

#[test]
fn bytes_are_read(rt: HostRuntime) -> Result<(), Fail> {
    let d = description_of(rt.alloc(), &PLAIN)?;
    let reading = read(rt.alloc(), &d, &[1, 0, 2]).ok_or("not plain")??;
    assert_eq!(rt; reading.bits, 24);
    assert_eq!(rt;
        reading.spans.as_slice(),
        [
            Span { from: 0, to: 24 },
            Span { from: 0, to: 8 },
            Span { from: 8, to: 24 }
        ]
        .as_slice()
    );
    let entries = entries_of(&reading).ok_or("no type's value")?;
    assert!(rt; matches!(entries, [Node::Num(1), Node::Num(2)]));
    Ok(())
}

#[test]
fn a_little_endian_number_is_read(rt: HostRuntime) -> Result<(), Fail> {
    let form = Form {
        fields: &[LITTLE_WORD],
        ..PLAIN
    };
    let d = description_of(rt.alloc(), &form)?;
    let reading = read(rt.alloc(), &d, &[0x34, 0x12]).ok_or("not plain")??;
    let entries = entries_of(&reading).ok_or("no type's value")?;
    assert!(rt; matches!(entries, [Node::Num(4660)]));
    Ok(())
}

#[test]
fn a_fields_own_order_comes_first(rt: HostRuntime) -> Result<(), Fail> {
    let form = Form {
        fields: &[WORD, BIG_WORD],
        order: Some(ByteOrder::Little),
        params: 0,
    };
    let d = description_of(rt.alloc(), &form)?;
    let reading = read(rt.alloc(), &d, &[0x34, 0x12, 0, 7]).ok_or("not plain")??;
    let entries = entries_of(&reading).ok_or("no type's value")?;
    assert!(rt; matches!(entries, [Node::Num(4660), Node::Num(7)]));
    Ok(())
}

#[test]
fn bytes_that_are_missing_are_told(rt: HostRuntime) -> Result<(), Fail> {
    let d = description_of(rt.alloc(), &PLAIN)?;
    for bytes in [[1, 0].as_slice(), &[1], &[]] {
        let outcome = read(rt.alloc(), &d, bytes).ok_or("not plain")?;
        assert!(rt; matches!(outcome, Err(ReadFault::Short)), "{bytes:?}");
    }
    Ok(())
}

/// How many fields of which kind a type has, and what of 65,536 bytes it makes: the bits of its value, or the bit at which a field
/// is too long.
const MANY_FIELDS: [(usize, Number, Result<u32, u32>); 6] = [
    (1, BYTE, Ok(8)),
    (3, WORD, Ok(48)),
    (256, LONG, Ok(16_384)),
    (65_535, BYTE, Ok(524_280)),
    (65_536, BYTE, Err(524_280)),
    (8_192, LONG, Err(524_224)),
];

#[test]
fn values_have_up_to_65535_bytes(rt: HostRuntime) -> Result<(), Fail> {
    let bytes = vec![in rt.alloc(); 0; 65_536]?;
    for (count, number, wanted) in MANY_FIELDS {
        let d = repeated(rt.alloc(), number, count)?;
        let got = match read(rt.alloc(), &d, &bytes).ok_or("not plain")? {
            Ok(reading) => {
                let entries = entries_of(&reading).ok_or("no type's value")?;
                assert_eq!(rt; entries.len(), count);
                Ok(reading.bits)
            }
            Err(
                ReadFault::Bad {
                    bit,
                    why: ReadWhy::TooLong,
                },
            ) => Err(bit),
            Err(_) => return Err(Fail::from("another fault")),
        };
        assert_eq!(rt; got, wanted, "{count} fields");
    }
    Ok(())
}

#[test]
fn only_plain_types_can_be_read(rt: HostRuntime) -> Result<(), Fail> {
    let plain = description_of(rt.alloc(), &PLAIN)?;
    assert!(rt; can_read(&plain, 0, &[]));
    assert!(rt; !can_read(&plain, 0, &[7]));
    assert!(rt; !can_read(&plain, 1, &[]));
    let others = [
        Form {
            fields: &[BYTE, TWELVE_BITS],
            ..PLAIN
        },
        Form { params: 1, ..PLAIN },
    ];
    for (i, other) in others.iter().enumerate() {
        let d = description_of(rt.alloc(), other)?;
        assert!(rt; !can_read(&d, 0, &[]), "{i}");
    }
    Ok(())
}
