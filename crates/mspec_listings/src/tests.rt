use crate::add_listing;
use mspec_tree::{
    Body, Case, Def, DefBody, Description, Expr, Field, FieldList, Lit, Name, Place, Ref, Shape,
    Simple,
};
use node_tree::{Node, OwnedList};
use sqlite_items::Items;
use std::alloc::{AllocError, Global};
use std::test::Fail;

const HERE: Place = Place { line: 1, column: 1 };

const ZERO: Lit = Lit::Num {
    negative: false,
    size: 0,
};

const BYTE: Simple = Simple::Uint(8);

fn spelt(alloc: Global, text: &str) -> Result<Name, AllocError> {
    Items::from_slice(alloc, text.as_bytes())
}

fn nothing() -> Expr {
    Expr {
        place: HERE,
        shape: Shape::Lit(ZERO),
    }
}

fn named(alloc: Global, text: &str) -> Result<Ref, AllocError> {
    Ok(Ref::Named {
        place: HERE,
        name: spelt(alloc, text)?,
        args: Items::new(alloc),
    })
}

fn field(alloc: Global, text: &str, body: Body) -> Result<Field, AllocError> {
    Ok(Field {
        place: HERE,
        named: HERE,
        name: spelt(alloc, text)?,
        order: None,
        body,
    })
}

fn case(alloc: Global, text: &str, fields: FieldList) -> Result<Case, AllocError> {
    Ok(Case {
        place: HERE,
        named: HERE,
        keys: Items::new(alloc),
        name: spelt(alloc, text)?,
        fields,
    })
}

fn def(alloc: Global, text: &str, body: DefBody) -> Result<Def, AllocError> {
    Ok(Def {
        place: HERE,
        named: HERE,
        name: spelt(alloc, text)?,
        params: Items::new(alloc),
        order: None,
        body,
    })
}

fn reserved(alloc: Global) -> Result<Field, AllocError> {
    field(alloc, "", Body::Reserved(BYTE, ZERO))
}

/// `[type E]`
fn empty_type(alloc: Global) -> Result<Def, AllocError> {
    def(alloc, "E", DefBody::Plain(Items::new(alloc)))
}

/// `[discriminatedType S [discriminator uint 8 k] [typeSwitch k ['0' B] ['1' A [reserved uint 8 '0']]] [reserved uint 8 '0']]`
fn switched_type(alloc: Global) -> Result<Def, AllocError> {
    let inner = Items::from_vec(vec![in alloc; reserved(alloc)?]?);
    let cases = vec![in alloc;
        case(alloc, "B", Items::new(alloc))?,
        case(alloc, "A", inner)?,
    ]?;
    let names = Items::from_vec(vec![in alloc; spelt(alloc, "k")?]?);
    let switch = Body::Switch(names, Items::from_vec(cases));
    let fields = vec![in alloc;
        field(alloc, "k", Body::Discriminator(Ref::Plain(BYTE)))?,
        field(alloc, "", switch)?,
        reserved(alloc)?,
    ]?;
    def(alloc, "S", DefBody::Switched(Items::from_vec(fields)))
}

/// A type with a field of each kind.
fn full_type(alloc: Global) -> Result<Def, AllocError> {
    let plain = |simple: Simple| Body::Simple(Ref::Plain(simple));
    let fields = vec![in alloc;
        field(alloc, "a", plain(Simple::Int(8)))?,
        field(alloc, "f", plain(Simple::Bit))?,
        field(alloc, "half", plain(Simple::Float(16)))?,
        field(alloc, "c", plain(Simple::Float(32)))?,
        field(
            alloc,
            "b",
            Body::CountArray(Ref::Plain(Simple::Byte), nothing())
        )?,
        field(alloc, "n", Body::Implicit(Ref::Plain(BYTE), nothing()))?,
        field(alloc, "o", Body::Optional(Ref::Plain(BYTE), nothing()))?,
        field(alloc, "v", Body::CountArray(Ref::Plain(BYTE), nothing()))?,
        field(alloc, "w", Body::LengthArray(Ref::Plain(BYTE), nothing()))?,
        field(alloc, "e", Body::Simple(named(alloc, "E")?))?,
        field(alloc, "s", Body::CountArray(named(alloc, "S")?, nothing()))?,
        reserved(alloc)?,
    ]?;
    def(alloc, "T", DefBody::Plain(Items::from_vec(fields)))
}

fn description(alloc: Global) -> Result<Description, AllocError> {
    let defs = vec![in alloc;
        empty_type(alloc)?,
        switched_type(alloc)?,
        full_type(alloc)?,
    ]?;
    Ok(Description {
        defs: Items::from_vec(defs),
    })
}

fn group(case: u16, entries: Vec<Node>) -> Node {
    Node::Group {
        case,
        entries: Items::from_vec(entries),
    }
}

fn chosen(alloc: Global) -> Result<Node, AllocError> {
    Ok(group(2, vec![in alloc; Node::Num(1), Node::Num(2), Node::Num(3)]?))
}

fn other_chosen(alloc: Global) -> Result<Node, AllocError> {
    Ok(group(1, vec![in alloc; Node::Num(0), Node::Num(4)]?))
}

fn full(alloc: Global) -> Result<Node, AllocError> {
    let numbers = vec![in alloc; Node::Num(9), Node::Num(10)]?;
    let groups = vec![in alloc; chosen(alloc)?, other_chosen(alloc)?]?;
    let entries = vec![in alloc;
        Node::Num(-128),
        Node::Flag(true),
        Node::Raw {
            bits: 0x3c00,
            width: 16
        },
        Node::Raw {
            bits: 0x0abc_def0,
            width: 32
        },
        Node::Blob(OwnedList::from_slice(alloc, &[0, 10, 255])?),
        Node::Unset,
        Node::Absent,
        Node::List(Items::new(alloc)),
        Node::List(Items::from_vec(numbers)),
        group(0, Vec::new(alloc)),
        Node::List(Items::from_vec(groups)),
        Node::Num(7),
    ]?;
    Ok(group(0, entries))
}

fn listed(alloc: Global, def: usize, node: &Node) -> Result<Vec<u8>, AllocError> {
    let mut text = Vec::from_slice(alloc, b"> ")?;
    add_listing(&mut text, &description(alloc)?, def, node)?;
    Ok(text)
}

#[test]
fn prints_a_line_for_each_leaf(rt: HostRuntime) -> Result<(), Fail> {
    let alloc = rt.alloc();
    let whole =
        "> a = -128\nf = true\nhalf = 16#3C00\nc = 16#0ABCDEF0\nb = 0x000aff\nn = unset\no = absent\n\
        v = []\nw[0] = 9\nw[1] = 10\ne = {}\n\
        s[0] : A\ns[0].k = 1\ns[0].#1 = 2\ns[0].#2 = 3\ns[1] : B\ns[1].k = 0\ns[1].#1 = 4\n#11 = 7\n";
    let text = listed(alloc, 2, &full(alloc)?)?;
    assert_eq!(rt; text.as_slice(), whole.as_bytes());
    let text = listed(alloc, 1, &chosen(alloc)?)?;
    assert_eq!(rt;
        text.as_slice(),
        b">  : A\nk = 1\n#1 = 2\n#2 = 3\n".as_slice()
    );
    let text = listed(alloc, 0, &group(0, Vec::new(alloc)))?;
    assert_eq!(rt; text.as_slice(), b"> ".as_slice());
    Ok(())
}
