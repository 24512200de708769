use crate::{ParseFault, parse};
use mspec_lexer::lex;
use mspec_tree::{Body, ByteOrder, DefBody, Description};
use std::alloc::{AllocError, Global};
use std::fmt::Write;
use std::test::Fail;

/// The tree of a text that has one.
fn tree_of(alloc: Global, text: &[u8]) -> Result<Description, Fail> {
    let Ok(tokens) = lex(alloc, text) else {
        return Err(Fail::from("no tokens"));
    };
    match parse(alloc, text, &tokens) {
        Ok(description) => Ok(description),
        Err(fault) => Err(Fail::from(fault)),
    }
}

/// Where a text leaves the grammar, and why.
fn fault_of(alloc: Global, text: &[u8]) -> Result<String, AllocError> {
    let mut said = String::new(alloc);
    let Ok(tokens) = lex(alloc, text) else {
        write!(&mut said, "no tokens")?;
        return Ok(said);
    };
    match parse(alloc, text, &tokens) {
        Ok(tree) => {
            drop(tree);
            write!(&mut said, "a tree")?;
        }
        Err(ParseFault::At { place, why }) => {
            let line = place.line;
            let column = place.column;
            write!(&mut said, "{line}:{column} {why:?}")?;
        }
        Err(ParseFault::NoMemory) => write!(&mut said, "NoMemory")?,
    }
    Ok(said)
}

fn kind_of(body: &Body) -> &'static str {
    match body {
        Body::Simple(_) => "simple",
        Body::Discriminator(_) => "discriminator",
        Body::Const(_, _) => "const",
        Body::Reserved(_, _) => "reserved",
        Body::Implicit(_, _) => "implicit",
        Body::Virtual(_, _) => "virtual",
        Body::Optional(_, _) => "optional",
        Body::Checksum(_, _) => "checksum",
        Body::Padding(_, _, _) => "padding",
        Body::CountArray(_, _) => "array by count",
        Body::LengthArray(_, _) => "array by length",
        Body::Switch(_, _) => "switch",
    }
}

/// Whether the tree is that of the text in the test below.
fn is_as_written(tree: &Description) -> bool {
    let [def] = tree.defs.as_slice() else {
        return false;
    };
    let DefBody::Plain(fields) = &def.body else {
        return false;
    };
    let [field] = fields.as_slice() else {
        return false;
    };
    def.place.column == 1
        && def.named.column == 7
        && def.name.as_slice() == b"A".as_slice()
        && def.params.len() == 2
        && matches!(def.order, Some(ByteOrder::Little))
        && field.place.line == 2
        && field.place.column == 2
        && field.named.column == 17
        && field.name.as_slice() == b"byteOrder".as_slice()
        && matches!(field.order, Some(ByteOrder::Big))
}

#[test]
fn a_tree_has_what_the_text_says(rt: HostRuntime) -> Result<(), Fail> {
    let text =
        b"[type A(uint 8 n, B b) byteOrder='LITTLE_ENDIAN'\n [simple uint 8 byteOrder byteOrder='BIG_ENDIAN']]";
    let tree = tree_of(rt.alloc(), text)?;
    let right = is_as_written(&tree);
    drop(tree);
    assert!(rt; right);
    Ok(())
}

/// The kinds of the fields in the text of the test below.
const KINDS: [&str; 12] = [
    "simple",
    "discriminator",
    "const",
    "reserved",
    "implicit",
    "virtual",
    "optional",
    "checksum",
    "padding",
    "array by count",
    "array by length",
    "switch",
];

/// Whether the tree is one type with fields of these kinds.
fn has_each_kind(tree: &Description) -> bool {
    let [def] = tree.defs.as_slice() else {
        return false;
    };
    let DefBody::Switched(fields) = &def.body else {
        return false;
    };
    let mut pairs = fields.as_slice().iter().zip(&KINDS);
    fields.len() == KINDS.len() && pairs.all(|(field, kind)| kind_of(&field.body) == *kind)
}

#[test]
fn each_kind_of_field_is_read(rt: HostRuntime) -> Result<(), Fail> {
    let text =
        b"[discriminatedType A [simple B('n', '2 + 3') a] [discriminator uint 8 a] [const uint 8 a -0] \
        [reserved uint 8 '0'] [implicit uint 8 a 'COUNT(b)'] [virtual bit a 'a == 1'] [optional B a 'v'] \
        [checksum uint 8 a 'SUM_BYTES'] [padding uint 8 a '0' '1'] [array byte a count 'n'] [array byte a length 'n'] \
        [typeSwitch a, b [*, '*' Any] ['1', '-1', 'true', 'ON' One [simple bit value]] [Last]]]";
    let tree = tree_of(rt.alloc(), text)?;
    let right = has_each_kind(&tree);
    drop(tree);
    assert!(rt; right);
    Ok(())
}

#[test]
fn many_definitions_of_each_kind_are_read(rt: HostRuntime) -> Result<(), Fail> {
    let mut text = Vec::new(rt.alloc());
    for _ in 0..1000 {
        text.extend_from_slice(
            b"[type A [simple bit a]]\n[discriminatedType B]\n[dataIo C [typeSwitch n ['1' manual]]]\n\
              [enum uint 8 D(bit b) ['1' ON ['true', '2']] ['2' OFF]]\n",
        )?;
    }
    let tree = tree_of(rt.alloc(), text.as_slice())?;
    let count = tree.defs.len();
    drop(tree);
    assert_eq!(rt; count, 4000);
    Ok(())
}

#[test]
fn a_fault_stands_at_the_first_token_with_which_no_text_goes_on(
    rt: HostRuntime,
) -> Result<(), Fail> {
    let rows: [(&[u8], &str); 36] = [
        (b"[type P [simple uint 8 a]", "1:26 EndOfText"),
        (b"[\n", "2:1 EndOfText"),
        (b"[type A\n", "2:1 EndOfText"),
        (b"[type A // x\r]", "1:15 EndOfText"),
        (
            b"[type A(uint 8 a) [virtual bit v 'a//b']]\n",
            "2:1 EndOfText",
        ),
        (b"\t\r]", "1:3 Unexpected"),
        (b"/* \xC3\xA9 */ ]", "1:10 Unexpected"),
        (b"[type bit]", "1:7 Unexpected"),
        (b"[type A()]", "1:9 Unexpected"),
        (b"[type A byteOrder='BIG_ENDIAN'(bit a)]", "1:31 Unexpected"),
        (b"[type A(bit a) [typeSwitch a]]", "1:17 Unexpected"),
        (b"[type A [simple ui/**/nt 8 a]]", "1:26 Unexpected"),
        (b"[type A [simple uint 0x a]]", "1:25 Unexpected"),
        (b"[type A [simple B() b]]", "1:19 Unexpected"),
        (b"[type A [const uint 8 c 0X10]]", "1:26 Unexpected"),
        (b"[type A [array byte v size '1']]", "1:23 Unexpected"),
        (b"[dataIo A]", "1:10 Unexpected"),
        (b"[dataIo A [manual uint 8 a]]", "1:12 Unexpected"),
        (b"[enum uint 8 A byteOrder='BIG_ENDIAN']", "1:16 Unexpected"),
        (b"[enum uint 8 A ['1' B []]]", "1:24 Unexpected"),
        (b"[type A [virtual uint 8 v '1 +']]", "1:31 Unexpected"),
        (b"[type A [virtual uint 8 v '1)']]", "1:29 Unexpected"),
        (
            b"[type A(bit a) [virtual uint 8 v 'a : a']]",
            "1:37 Unexpected",
        ),
        (
            b"[type A(uint 8 a) [virtual uint 8 v 'a </**/< 1']]",
            "1:45 Unexpected",
        ),
        (
            b"[type A(uint 8 a) [virtual uint 8 w 'CAST(a, \"B)']]",
            "1:48 Unexpected",
        ),
        (
            b"[type A [simple B b] [virtual uint 8 w 'b.bit']] [type B]",
            "1:43 Unexpected",
        ),
        (b"[type M [manual uint 8 a]]", "1:10 LeftOut"),
        (
            b"[discriminatedType A(bit a) [typeSwitch a [B [batchSet uint 8 b]]]]",
            "1:47 LeftOut",
        ),
        (b"[type A [array byte v terminated '0']]", "1:23 LeftOut"),
        (b"[type A [simple string x]]", "1:17 LeftOut"),
        (b"[type A(dateTime x)]", "1:9 LeftOut"),
        (b"[enum string A]", "1:7 LeftOut"),
        (
            b"[type A [virtual uint 8 v '1 + STATIC_CALL']]",
            "1:32 LeftOut",
        ),
        (
            b"[type A(uint 8 a) [virtual uint 8 v 'a.STATIC_CALL']]",
            "1:40 LeftOut",
        ),
        (
            b"[type A [virtual bit v '!!!!!!!!!!!!!!!!!!!!!!!!!!!!!!!!a']]",
            "1:56 TooDeep",
        ),
        (
            b"[type A [virtual bit v '1-1-1-1-1-1-1-1-1-1-1-1-1-1-1-1-1-1-1-1-1-1-1-1-1-1-1-1-1-1-1-1-1']]",
            "1:88 TooDeep",
        ),
    ];
    for (text, expected) in rows {
        let said = fault_of(rt.alloc(), text)?;
        assert_eq!(rt; said.as_str(), expected);
    }
    Ok(())
}
