//! Which texts `decode` takes for a description, and what it says of the others.
use crate::tests::decoded;
use std::test::Fail;

/// Texts with a type `P` in the first form, an input, and its listing.
const IN_THE_FORM: [(&[u8], &[u8], &[u8]); 10] = [
    (b"[type P[simple uint 8a]]", b"\x01", b"a = 1\n\n"),
    (
        b"\t[\r\ntype\n P\r\n[\tsimple\ruint\t\t16\nc ] ]\r\n",
        b"\x01\x02",
        b"c = 258\n\n",
    ),
    (b"[type P [simple uint 8 P]]", b"\x01", b"P = 1\n\n"),
    (
        b"[type P [simple uint 8 simple] [simple uint 8 uint8]]",
        b"\x01\x02",
        b"simple = 1\nuint8 = 2\n\n",
    ),
    (
        b"[type P [simple uint 8 a] [simple uint 8 A]]",
        b"\x01\x02",
        b"a = 1\nA = 2\n\n",
    ),
    (b"[type P[simple uint 8_0]]", b"\x01", b"_0 = 1\n\n"),
    (
        b"/* a */ [type P [simple uint 8 a]] // a",
        b"\x01",
        b"a = 1\n\n",
    ),
    (
        b"[type P [simple uint 0x10 a]]",
        b"\x01\x02",
        b"a = 258\n\n",
    ),
    (b"[type P [simple uint 016 a]]", b"\x01\x02", b"a = 258\n\n"),
    (
        b"[type P [simple uint 8 byteOrder]]",
        b"\x01",
        b"byteOrder = 1\n\n",
    ),
];

/// Texts of accepted descriptions outside the form.
const OUTSIDE_THE_FORM: [&[u8]; 13] = [
    b"",
    b" \n",
    b"[type P]",
    b"[type P ]",
    b"[type P [simple uint 8 a]] [type Q [simple uint 8 a]]",
    b"[type P [simple uint 12 a]]",
    b"[type P [simple int 8 a]]",
    b"[type P [simple bit a]]",
    b"[type P [const uint 8 a 1]]",
    b"[type P [simple uint 8 a byteOrder='BIG_ENDIAN']]",
    b"[type P byteOrder='BIG_ENDIAN' [simple uint 8 a]]",
    b"[type P(uint 8 n) [simple uint 8 a]]",
    b"[enum uint 8 P ['1' ONE]]",
];

/// Texts without a tree, with the place at which each leaves the language and why.
const NO_TREE: [(&[u8], &[u8]); 14] = [
    (b"[type P [simple uint 8 a]", b"1:26 EndOfText"),
    (b"[type P\n[simple uint 8 a]\n", b"3:1 EndOfText"),
    (b"[type P [simple uint 8 a]]]", b"1:27 Unexpected"),
    (b"[type P [simple uint 8 a]] x", b"1:28 Unexpected"),
    (b"[type P [simple uint a]]", b"1:22 Unexpected"),
    (b"[typeP [simple uint 8 a]]", b"1:2 Unexpected"),
    (b"[type bit [simple uint 8 a]]", b"1:7 Unexpected"),
    (b"[type P [simple uint 8 XOR_BYTES]]", b"1:24 Unexpected"),
    (b"[type M [manual uint 8 a]]", b"1:10 LeftOut"),
    (
        b"[const uint 8 a 340282366920938463463374607431768211456]",
        b"1:17 WideNumber",
    ),
    (b"[type P\x0b[simple uint 8 a]]", b"1:8 Character"),
    (b"[type P [simple uint 8 a\xc8]]", b"1:25 Character"),
    (b"] $", b"1:3 Character"),
    (b"[type P\n /*", b"2:2 OpenComment"),
];

#[test]
fn texts_in_the_first_form_are_decoded_by(rt: HostRuntime) -> Result<(), Fail> {
    for (text, input, want) in IN_THE_FORM {
        let ran = decoded(rt.alloc(), text, input, 100)?;
        assert_eq!(rt; ran.text.as_slice(), want);
        assert_eq!(rt; ran.status, 0);
    }
    Ok(())
}

#[test]
fn a_description_outside_the_first_form_is_not_built(rt: HostRuntime) -> Result<(), Fail> {
    for text in OUTSIDE_THE_FORM {
        let ran = decoded(rt.alloc(), text, b"\x01", 100)?;
        let want: &[u8] = b"description refused 1:1 NotBuilt\n";
        assert_eq!(rt; ran.text.as_slice(), want, "{text:?}");
        assert_eq!(rt; ran.status, 1);
    }
    Ok(())
}

#[test]
fn a_text_without_a_tree_is_refused_where_it_leaves_the_language(
    rt: HostRuntime,
) -> Result<(), Fail> {
    for (text, place) in NO_TREE {
        let ran = decoded(rt.alloc(), text, b"\x01", 100)?;
        let mut want = Vec::from_slice(rt.alloc(), b"description refused ")?;
        want.extend_from_slice(place)?;
        want.extend_from_slice(b"\n")?;
        assert_eq!(rt; ran.text.as_slice(), want.as_slice(), "{text:?}");
        assert_eq!(rt; ran.status, 1);
    }
    Ok(())
}

#[test]
fn a_text_cut_anywhere_is_refused(rt: HostRuntime) -> Result<(), Fail> {
    let text = b"[type P [simple uint 8 a] [simple uint 16 b]]".as_slice();
    for len in 0..text.len() {
        let ran = decoded(rt.alloc(), &text[..len], b"\x01", 100)?;
        assert_eq!(rt; ran.status, 1, "{len}");
    }
    Ok(())
}
