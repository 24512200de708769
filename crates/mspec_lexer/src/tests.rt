use crate::{LexFault, LexWhy, TokenKind, lex};
use mspec_tree::Place;
use std::alloc::{AllocError, Global};
use std::fmt::Write;
use std::process::Abort;
use std::test::Fail;

/// The tokens of a text with their places and bytes, or its fault.
fn spell(alloc: Global, text: &[u8]) -> Result<String, AllocError> {
    let mut spelled = String::new(alloc);
    match lex(alloc, text) {
        Ok(tokens) => {
            for token in tokens.as_slice() {
                let Place { line, column } = token.place;
                let from = token.from;
                let to = token.to;
                write!(&mut spelled, "{line}:{column} {from}..{to} ")?;
                match token.kind {
                    TokenKind::Name => write!(&mut spelled, "name; ")?,
                    TokenKind::Number(number) => write!(&mut spelled, "{number}; ")?,
                    TokenKind::Symbol(symbol) => write!(&mut spelled, "{symbol:?}; ")?,
                }
            }
        }
        Err(LexFault::At { place, why }) => {
            let Place { line, column } = place;
            write!(&mut spelled, "{line}:{column} {why:?}")?;
        }
        Err(LexFault::NoMemory) => write!(&mut spelled, "NoMemory")?,
    }
    Ok(spelled)
}

fn compare(rt: &impl Abort, alloc: Global, rows: &[(&[u8], &str)]) -> Result<(), Fail> {
    for (text, expected) in rows {
        let spelled = spell(alloc, text)?;
        assert_eq!(rt; spelled.as_str(), *expected);
    }
    Ok(())
}

#[test]
fn each_token_is_the_longest_at_its_place(rt: HostRuntime) -> Result<(), Fail> {
    let rows: [(&[u8], &str); 13] = [
        (b"", ""),
        (
            b"[type A]",
            "1:1 0..1 LeftBracket; 1:2 1..5 name; 1:7 6..7 name; 1:8 7..8 RightBracket; ",
        ),
        (
            b"_a1 \n\t9\r\nb",
            "1:1 0..3 name; 2:2 6..7 9; 3:1 9..10 name; ",
        ),
        (b"0x", "1:1 0..1 0; 1:2 1..2 name; "),
        (b"0X10", "1:1 0..1 0; 1:2 1..4 name; "),
        (b"0x1fAg", "1:1 0..5 506; 1:6 5..6 name; "),
        (b"12ab", "1:1 0..2 12; 1:3 2..4 name; "),
        (
            b"00000000000000000000000000000000000000000017",
            "1:1 0..44 17; ",
        ),
        (
            b"===!=",
            "1:1 0..2 DoubleEqual; 1:3 2..3 Equal; 1:4 3..5 NotEqual; ",
        ),
        (
            b"<<=>>=<>",
            "1:1 0..2 DoubleLess; 1:3 2..3 Equal; 1:4 3..5 DoubleGreater; 1:6 5..6 Equal; 1:7 6..7 Less; 1:8 7..8 Greater; ",
        ),
        (
            b"&&&|||!",
            "1:1 0..2 DoubleAmpersand; 1:3 2..3 Ampersand; 1:4 3..5 DoubleBar; 1:6 5..6 Bar; 1:7 6..7 Exclamation; ",
        ),
        (
            b"<=>=()'\"",
            "1:1 0..2 LessEqual; 1:3 2..4 GreaterEqual; 1:5 4..5 LeftParenthesis; 1:6 5..6 RightParenthesis; 1:7 6..7 Quote; 1:8 7..8 DoubleQuote; ",
        ),
        (
            b",.*+-/%?:",
            "1:1 0..1 Comma; 1:2 1..2 Dot; 1:3 2..3 Star; 1:4 3..4 Plus; 1:5 4..5 Minus; 1:6 5..6 Slash; 1:7 6..7 Percent; 1:8 7..8 Question; 1:9 8..9 Colon; ",
        ),
    ];
    compare(&rt, rt.alloc(), &rows)
}

#[test]
fn a_comment_is_a_blank_everywhere(rt: HostRuntime) -> Result<(), Fail> {
    let rows: [(&[u8], &str); 8] = [
        (b"ui/**/nt", "1:1 0..2 name; 1:7 6..8 name; "),
        (b"</**/<", "1:1 0..1 Less; 1:6 5..6 Less; "),
        (b"a//b'\n]", "1:1 0..1 name; 2:1 6..7 RightBracket; "),
        (b"// x\r[type A", ""),
        (b"/* a\n * b **/c", "2:9 13..14 name; "),
        (b"/* /* */ */", "1:10 9..10 Star; 1:11 10..11 Slash; "),
        (b"//\x00\xff\n/*\x00\xff*/ a", "2:8 12..13 name; "),
        (b"/=", "1:1 0..1 Slash; 1:2 1..2 Equal; "),
    ];
    compare(&rt, rt.alloc(), &rows)
}

#[test]
fn a_fault_stands_at_the_first_place_that_begins_nothing(rt: HostRuntime) -> Result<(), Fail> {
    let rows: [(&[u8], &str); 10] = [
        (b"] $", "1:3 Character"),
        (b"a\x00", "1:2 Character"),
        (b"a\n\x0bb", "2:1 Character"),
        (b"\x0c", "1:1 Character"),
        (b"[\xc3\xa4]", "1:2 Character"),
        (b" /*/", "1:2 OpenComment"),
        (b"a /* *", "1:3 OpenComment"),
        (b"$ /*", "1:1 Character"),
        (
            b"340282366920938463463374607431768211456 $",
            "1:1 WideNumber",
        ),
        (b"a 0x100000000000000000000000000000000", "1:3 WideNumber"),
    ];
    compare(&rt, rt.alloc(), &rows)
}

#[test]
fn the_last_number_is_taken(rt: HostRuntime) -> Result<(), Fail> {
    let rows: [(&[u8], &str); 3] = [
        (
            b"340282366920938463463374607431768211455",
            "1:1 0..39 340282366920938463463374607431768211455; ",
        ),
        (
            b"0xFFFFffffFFFFffffFFFFffffFFFFffff",
            "1:1 0..34 340282366920938463463374607431768211455; ",
        ),
        (
            b"000340282366920938463463374607431768211456",
            "1:1 WideNumber",
        ),
    ];
    compare(&rt, rt.alloc(), &rows)
}

#[test]
fn a_text_of_the_limit_is_taken_and_one_byte_more_is_not(rt: HostRuntime) -> Result<(), Fail> {
    let alloc = rt.alloc();
    let mut text = vec![in alloc; b'$'; 1_048_577]?;
    let why = LexWhy::TextTooLong;
    let place = Place { line: 1, column: 1 };
    assert_eq!(rt;
        lex(alloc, text.as_slice()).err(),
        Some(LexFault::At { place, why })
    );
    text.fill(b'1');
    text.truncate(1_048_576);
    let why = LexWhy::WideNumber;
    assert_eq!(rt;
        lex(alloc, text.as_slice()).err(),
        Some(LexFault::At { place, why })
    );
    text.fill(b'a');
    let tokens = lex(alloc, text.as_slice()).map_err(|_| "refused")?;
    assert_eq!(rt; tokens.len(), 1);
    assert_eq!(rt; tokens.as_slice()[0].to, 1_048_576);
    Ok(())
}
