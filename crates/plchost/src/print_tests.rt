//! The command `print`.
use crate::tests::{Failing, NONE_FAILS, Ran, run};
use std::alloc::{AllocError, Global};
use std::test::Fail;

/// `print p` over a file `p` of this text, beside an input that it leaves alone, in pieces of at most 100 bytes.
fn printed(alloc: Global, text: &[u8], failing: Failing<'_>) -> Result<Ran, AllocError> {
    run(alloc, &["print", "p"], text, b"\x01", failing, 100)
}

/// Texts of `p`, with what `print p` puts out for them and its status.
const PRINTED: [(&[u8], &[u8], u8); 9] = [
    (
        b"[type P [simple uint 8 a] [simple uint 16 b]]",
        b"[type P\n  [simple uint 8 a]\n  [simple uint 16 b]\n]\n",
        0,
    ),
    (
        b"[type V [simple uint 8 a][virtual uint 32 v 'a+a*2']]",
        b"[type V\n  [simple uint 8 a]\n  [virtual uint 32 v 'a + (a * 2)']\n]\n",
        0,
    ),
    (
        b"// a\n[type P[simple uint 0x10 a]] /* b */",
        b"[type P\n  [simple uint 16 a]\n]\n",
        0,
    ),
    (b"", b"", 0),
    (
        b"[type P [simple uint 8 a]",
        b"description refused 1:26 EndOfText\n",
        1,
    ),
    (b"[type P /* x", b"description refused 1:9 OpenComment\n", 1),
    (
        b"[type M [manual uint 8 a]]",
        b"description refused 1:10 LeftOut\n",
        1,
    ),
    (
        b"[type N [const uint 8 c 0x100000000000000000000000000000000]]",
        b"description refused 1:25 WideNumber\n",
        1,
    ),
    (
        b"[type P\n[simple uint 8 'a']]",
        b"description refused 2:16 Unexpected\n",
        1,
    ),
];

#[test]
fn prints_the_canonical_text_or_where_the_text_leaves_the_language(
    rt: HostRuntime,
) -> Result<(), Fail> {
    for (text, want, status) in PRINTED {
        let ran = printed(rt.alloc(), text, NONE_FAILS)?;
        assert_eq!(rt; ran.text.as_slice(), want);
        assert_eq!(rt; ran.status, status);
    }
    Ok(())
}

#[test]
fn a_text_of_more_bytes_than_a_description_has_is_too_long(rt: HostRuntime) -> Result<(), Fail> {
    let mut text = Vec::new(rt.alloc());
    text.resize(1_048_577, b' ')?;
    let ran = printed(rt.alloc(), &text, NONE_FAILS)?;
    let want: &[u8] = b"description refused 1:1 TextTooLong\n";
    assert_eq!(rt; ran.text.as_slice(), want);
    assert_eq!(rt; ran.status, 1);
    text.truncate(1_048_576);
    let ran = printed(rt.alloc(), &text, NONE_FAILS)?;
    assert_eq!(rt; ran.text.len(), 0);
    assert_eq!(rt; ran.status, 0);
    Ok(())
}

#[test]
fn a_file_that_there_is_not_is_not_printed(rt: HostRuntime) -> Result<(), Fail> {
    for name in ["q", "P"] {
        let ran = run(rt.alloc(), &["print", name], b"", b"", NONE_FAILS, 100)?;
        assert_eq!(rt; ran.text.as_slice(), b"file fault\n".as_slice());
        assert_eq!(rt; ran.status, 3);
    }
    Ok(())
}

#[test]
fn a_fault_of_the_file_or_of_the_output_ends_the_printing(rt: HostRuntime) -> Result<(), Fail> {
    let text = b"[type P [simple uint 8 a]]";
    for at in 1u64..=2 {
        let failing = Failing {
            file_reads: &[at],
            ..NONE_FAILS
        };
        let ran = printed(rt.alloc(), text, failing)?;
        assert_eq!(rt; ran.text.as_slice(), b"file fault\n".as_slice());
        assert_eq!(rt; ran.status, 3);
    }
    // the one write and the flush
    for at in 1u64..=2 {
        let failing = Failing {
            writes: &[at],
            ..NONE_FAILS
        };
        let ran = printed(rt.alloc(), text, failing)?;
        assert_eq!(rt; ran.status, 5, "write {at}");
    }
    Ok(())
}
