//! Which descriptions are accepted, and what is told of the others: the command `check`, and what `print` and `decode` refuse too.
use crate::tests::{NONE_FAILS, Ran, run};
use std::alloc::{AllocError, Global};
use std::fmt::Write;
use std::test::Fail;

/// A command over a file `p` of this text, beside an input.
fn ran_over(alloc: Global, words: &[&str], text: &[u8]) -> Result<Ran, AllocError> {
    run(alloc, words, text, b"\x01", NONE_FAILS, 100_000)
}

/// The line of a description that is refused at a place, for why.
fn refusal(alloc: Global, place_and_why: &[u8]) -> Result<Vec<u8>, AllocError> {
    let mut line = Vec::from_slice(alloc, b"description refused ")?;
    line.extend_from_slice(place_and_why)?;
    line.extend_from_slice(b"\n")?;
    Ok(line)
}

/// Descriptions that are accepted.
const ACCEPTED: [&[u8]; 15] = [
    b"",
    b"[type P [simple uint 8 a] [simple uint 16 b]]",
    b"[type R [reserved bit 'true'] [reserved bit 'true'] [simple uint 6 R]]",
    b"[dataIo D(bit k) [typeSwitch k ['true' B [simple byte a]] [B [simple bit a]]]]",
    b"[type A [simple A a]] [enum byte E] [enum byte F(uint 8 size) ['1' A ['2']] ['1' B]]",
    b"[enum byte E ['1' ON]] [type B(E e, uint 8 n)] [type A [simple E e] [simple B('1', 'e') b] [simple B('E.ON', 'E.ON') c]]",
    b"[type A [implicit byte v 'w'] [simple byte w]]",
    b"[discriminatedType T [simple byte a] [typeSwitch a [B [implicit byte d 'z + y'] [simple byte y]]] [simple byte z]]",
    b"[enum byte E(uint 8 size, bit flag) ['1' ON ['4', 'true']] ['2' OFF]]\n[type T [simple E e] [virtual bit v 'e == E.ON && e.flag && e.size > 1']]",
    b"[type T [discriminator byte a] [simple byte b] [array byte c count '1'] [padding byte p '0' 'lastItem ? a + b : COUNT(c) % 2']]",
    b"[type A [simple float 64 a] [optional float 16 b 'true'] [array float 32 c count '1']]",
    b"[type A [optional float 32 a 'true'] [virtual bit v 'a == null && null != a']]",
    b"[type A [const int 8 a -128] [const int 8 b 127] [const uint 64 c 18446744073709551615]]",
    b"[type A [simple uint 8 a] [virtual byte v '1 / (a + 1)']]",
    b"[type A [simple uint 6 a] [virtual uint 64 v '1 << a'] [virtual uint 64 w '18446744073709551615 >> a']]",
];

#[test]
fn what_no_rule_forbids_is_accepted(rt: HostRuntime) -> Result<(), Fail> {
    for text in ACCEPTED {
        let ran = ran_over(rt.alloc(), &["check", "p"], text)?;
        assert_eq!(rt; ran.text.as_slice(), b"accepted\n".as_slice(), "{text:?}");
        assert_eq!(rt; ran.status, 0);
    }
    Ok(())
}

/// Descriptions that aren't, with the place and why.
const REFUSED: [(&[u8], &[u8]); 41] = [
    (b"[type P [simple uint 8 a]", b"1:26 EndOfText"),
    (
        b"[type P [simple uint 8 a] [simple uint 8 a]]",
        b"1:42 DoubledName",
    ),
    (
        b"[type P [simple uint 8 a] [simple uint 16 b] [simple uint 32 a]]",
        b"1:62 DoubledName",
    ),
    (b"[type A] [enum byte A]", b"1:21 DoubledName"),
    (
        b"[discriminatedType A [discriminator bit k] [typeSwitch k ['true' B [simple byte a]]] [simple bit a]]",
        b"1:98 DoubledName",
    ),
    (b"[type P [simple Q a]]", b"1:17 UnknownType"),
    (b"[type P [simple uint8 a]]", b"1:17 UnknownType"),
    (b"[type B] [type A(B b)]", b"1:18 KindMismatch"),
    (b"[type A [const float 32 a 1]]", b"1:9 KindMismatch"),
    (b"[type P [simple uint 0 a]]", b"1:9 WidthRange"),
    (b"[type P [simple uint 264 a]]", b"1:9 WidthRange"),
    (b"[enum uint 65 A]", b"1:1 WidthRange"),
    (
        b"[type L [simple bit a byteOrder='LITTLE_ENDIAN']]",
        b"1:9 LittleWidth",
    ),
    (b"[type A [const uint 8 a 256]]", b"1:9 ConstRange"),
    (b"[enum uint 8 A ['255' B] ['256' C]]", b"1:33 ConstRange"),
    (
        b"[discriminatedType A [simple byte a]]",
        b"1:20 SwitchCount",
    ),
    (
        b"[dataIo A(bit a) [typeSwitch a ['true' B] ['false', * C]]]",
        b"1:43 SwitchCount",
    ),
    (b"[dataIo A(bit a) [typeSwitch a ['1' B]]]", b"1:32 CaseKey"),
    (
        b"[enum byte E ['1' ON]] [dataIo A(E a) [typeSwitch a ['ON' B] ['OFF' C]]]",
        b"1:62 CaseKey",
    ),
    (b"[type B(bit a)] [type A [simple B b]]", b"1:33 Arguments"),
    (
        b"[type B(bit a)] [type A [simple B('1') b]]",
        b"1:33 Arguments",
    ),
    (
        b"[type A [virtual byte v 'w'] [simple byte w]]",
        b"1:26 UnknownName",
    ),
    (
        b"[type A [virtual byte w '1'] [implicit byte v 'w']]",
        b"1:48 UnknownName",
    ),
    (
        b"[discriminatedType T [simple byte a] [typeSwitch a [B [simple byte c]]] [virtual byte e 'c']]",
        b"1:90 UnknownName",
    ),
    (
        b"[type A [virtual byte v 'lengthInBytes']]",
        b"1:26 UnknownName",
    ),
    (
        b"[discriminatedType R [discriminator byte k] [typeSwitch k ['1' C [simple byte x]]]]\n[discriminatedType S [discriminator byte k] [typeSwitch k ['1' A [simple byte x]]]]\n[type T [simple S s] [virtual byte v 'CAST(s, C).x']]",
        b"3:39 UnknownName",
    ),
    (
        b"[type T(byte a) [padding byte p '0' 'a']]",
        b"1:38 PaddingScope",
    ),
    (
        b"[type A [simple bit f] [virtual byte v 'f + 1']]",
        b"1:43 KindMismatch",
    ),
    (
        b"[enum byte E ['1' ON]] [type A(bit f) [simple E e] [virtual byte v 'f ? e : 1']]",
        b"1:71 KindMismatch",
    ),
    (
        b"[type A [simple byte a] [virtual bit v 'a == null']]",
        b"1:43 KindMismatch",
    ),
    (b"[type A [optional byte a '1']]", b"1:27 KindMismatch"),
    (
        b"[type A [simple float 32 a] [virtual byte v 'a']]",
        b"1:46 KindMismatch",
    ),
    (
        b"[type D [simple uint 8 a] [simple uint 8 b] [virtual uint 8 c 'a / b']]",
        b"1:66 DivisorMayBeZero",
    ),
    (
        b"[type W [simple uint 64 a] [virtual uint 64 c 'a * a']]",
        b"1:50 TooWide",
    ),
    (
        b"[type A [virtual byte v '18446744073709551616']]",
        b"1:26 TooWide",
    ),
    (
        b"[type A [simple int 8 a] [virtual byte v 'a & 1']]",
        b"1:45 OperandRange",
    ),
    (
        b"[type A [simple uint 7 a] [virtual byte v '1 >> a']]",
        b"1:46 OperandRange",
    ),
    (
        b"[type A [array byte a count '1'] [virtual uint 64 v 'COUNT(a) * 1099511627775'] [virtual uint 64 w 'COUNT(a) * 1099511627777']]",
        b"1:110 TooWide",
    ),
    (
        b"[type T(bit a, bit b, bit c, bit d, bit e, bit f, bit g, bit h, bit i, bit j, bit k, bit l, bit m, bit n, bit o, bit p, bit q)]",
        b"1:125 Limit",
    ),
    (
        b"[type A [virtual byte v 'z'] [simple B b]]",
        b"1:26 UnknownName",
    ),
    (b"[type A [virtual byte v 'z'] $]", b"1:30 Character"),
];

#[test]
fn each_command_refuses_at_the_earliest_fault(rt: HostRuntime) -> Result<(), Fail> {
    for (text, place_and_why) in REFUSED {
        let want = refusal(rt.alloc(), place_and_why)?;
        let checked = ran_over(rt.alloc(), &["check", "p"], text)?;
        assert_eq!(rt; checked.text.as_slice(), want.as_slice(), "{text:?}");
        assert_eq!(rt; checked.status, 1);
        let printed = ran_over(rt.alloc(), &["print", "p"], text)?;
        assert_eq!(rt; printed.text.as_slice(), want.as_slice(), "{text:?}");
        assert_eq!(rt; printed.status, 1);
        let decoded = ran_over(rt.alloc(), &["decode", "p", "P"], text)?;
        assert_eq!(rt; decoded.text.as_slice(), want.as_slice(), "{text:?}");
        assert_eq!(rt; decoded.status, 1);
    }
    Ok(())
}

#[test]
fn a_description_has_up_to_1024_definitions(rt: HostRuntime) -> Result<(), Fail> {
    let mut text = String::new(rt.alloc());
    for number in 0u32..1024 {
        write!(text, "[type T{number}]\n")?;
    }
    let ran = ran_over(rt.alloc(), &["check", "p"], text.as_bytes())?;
    assert_eq!(rt; ran.text.as_slice(), b"accepted\n".as_slice());
    text.push_str("[type U]")?;
    let ran = ran_over(rt.alloc(), &["check", "p"], text.as_bytes())?;
    let want: &[u8] = b"description refused 1025:1 Limit\n";
    assert_eq!(rt; ran.text.as_slice(), want);
    Ok(())
}
