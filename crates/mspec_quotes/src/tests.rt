ghost use Rattle.std.specs.Prelude.{◌↔◌, IsTrue};
ghost use Rattle.mspec_grammar.specs.Senses.{AreWithin};

use crate::{QuoteFault, quoted};
use mspec_grammar::ParseWhy;
use mspec_lexer::{Symbol, Token, TokenKind};
use mspec_tree::{Expr, Op, Place, Shape};
use std::alloc::{AllocError, Global};
use std::process::Abort;
use std::test::Fail;

fn are_within(text: &[u8], tokens: &[Token]) -> bool
    ensures { IsTrue result ↔ AreWithin text.now tokens.now }
{
    tokens.iter().all(|token| token.from <= token.to && token.to as usize <= text.len())
}

/// What a word of a test's text is.
fn kind(word: &str) -> TokenKind {
    match word {
        "'" => TokenKind::Symbol(Symbol::Quote),
        "\"" => TokenKind::Symbol(Symbol::DoubleQuote),
        "(" => TokenKind::Symbol(Symbol::LeftParenthesis),
        ")" => TokenKind::Symbol(Symbol::RightParenthesis),
        "+" => TokenKind::Symbol(Symbol::Plus),
        "-" => TokenKind::Symbol(Symbol::Minus),
        "*" => TokenKind::Symbol(Symbol::Star),
        "!" => TokenKind::Symbol(Symbol::Exclamation),
        "?" => TokenKind::Symbol(Symbol::Question),
        ":" => TokenKind::Symbol(Symbol::Colon),
        "." => TokenKind::Symbol(Symbol::Dot),
        "," => TokenKind::Symbol(Symbol::Comma),
        "1" => TokenKind::Number(1),
        _ => TokenKind::Name,
    }
}

/// The tokens of a text whose words stand one blank apart.
fn tokens_of(alloc: Global, text: &str) -> Result<Vec<Token>, AllocError> {
    let mut tokens = Vec::new(alloc);
    let mut from = 0u32;
    for word in text.split(' ') {
        let to = from.saturating_add(u32::try_from(word.len()).unwrap_or(0));
        let place = Place {
            line: 1,
            column: from.saturating_add(1),
        };
        if from < to {
            let kind = kind(word);
            tokens.push(Token {
                kind,
                from,
                to,
                place,
            })?;
        }
        from = to.saturating_add(1);
    }
    Ok(tokens)
}

/// A text, as often as it is said a part, and a text behind.
fn repeated(
    alloc: Global,
    before: &str,
    times: u32,
    part: &str,
    behind: &str,
) -> Result<String, AllocError> {
    let mut text = String::from_str(alloc, before)?;
    for _ in 0..times {
        text.push_str(part)?;
    }
    text.push_str(behind)?;
    Ok(text)
}

fn read(
    rt: &impl Abort,
    alloc: Global,
    text: &str,
) -> Result<Result<(Expr, usize), QuoteFault>, AllocError> {
    let tokens = tokens_of(alloc, text)?;
    let within = are_within(text.as_bytes(), &tokens);
    assert!(rt; within);
    Ok(quoted(alloc, text.as_bytes(), &tokens, 0))
}

fn fault(rt: &impl Abort, alloc: Global, text: &str) -> Result<Option<QuoteFault>, AllocError> {
    Ok(read(rt, alloc, text)?.err())
}

#[test]
fn faults_stand_at_their_tokens(rt: HostRuntime) -> Result<(), Fail> {
    let rows = [
        ("' 1 + '", 3, ParseWhy::Unexpected),
        ("' 1 ) '", 2, ParseWhy::Unexpected),
        ("' ( 1 '", 3, ParseWhy::Unexpected),
        ("' a : a '", 2, ParseWhy::Unexpected),
        ("' b . bit '", 3, ParseWhy::Unexpected),
        ("' CAST ( a , \" B ) '", 7, ParseWhy::Unexpected),
        ("' COUNT a '", 2, ParseWhy::Unexpected),
        ("' a . STATIC_CALL '", 3, ParseWhy::LeftOut),
        ("' 1 + STATIC_CALL '", 3, ParseWhy::LeftOut),
        ("' a STATIC_CALL '", 2, ParseWhy::LeftOut),
        ("STATIC_CALL", 0, ParseWhy::Unexpected),
        ("' 1", 2, ParseWhy::EndOfText),
        ("", 0, ParseWhy::EndOfText),
    ];
    for (text, index, why) in rows {
        assert_eq!(rt;
            fault(&rt, rt.alloc(), text)?,
            Some(QuoteFault::At { index, why })
        );
    }
    Ok(())
}

#[test]
fn depth_is_counted(rt: HostRuntime) -> Result<(), Fail> {
    let deep = |index: usize| QuoteFault::At {
        index,
        why: ParseWhy::TooDeep,
    };
    // The text in front, a part and how often it stands, the text behind, and the token at fault.
    let rows = [
        ("' ", 31, "! ", "! true '", Some(32)),
        ("' ", 31, "- ", "1 '", None),
        ("' 1 ", 31, "- 1 ", "- 1 '", Some(64)),
        ("' ", 31, "1 - ( ", "1 - 1", Some(95)),
        ("' 1 ", 30, "+ 1 ", "+ 1 * 1 '", None),
        ("' 1 ", 30, "+ 1 ", "+ 1 + 1 '", Some(64)),
        ("' ", 31, "true ? 1 : ", "true ? 1 : 1 '", Some(126)),
        ("' a ", 31, ". b ", ". b '", Some(64)),
        ("' ", 31, "- ", "s . k '", Some(33)),
    ];
    for (before, times, part, behind, index) in rows {
        let text = repeated(rt.alloc(), before, times, part, behind)?;
        assert_eq!(rt; fault(&rt, rt.alloc(), text.as_str())?, index.map(deep));
    }
    Ok(())
}

#[test]
fn parentheses_count_nothing(rt: HostRuntime) -> Result<(), Fail> {
    let open = repeated(rt.alloc(), "' ", 100_000, "( ", "1")?;
    let text = repeated(rt.alloc(), open.as_str(), 100_000, " )", " '")?;
    assert_eq!(rt; fault(&rt, rt.alloc(), text.as_str())?, None);
    Ok(())
}

fn is_two(expr: &Expr, operator: Op) -> bool {
    matches!(&expr.shape, Shape::Two(found, _, _) if *found == operator)
}

#[test]
fn operators_group(rt: HostRuntime) -> Result<(), Fail> {
    if let Ok((expr, end)) = read(&rt, rt.alloc(), "' 1 - 1 - 1 '")? {
        assert_eq!(rt; end, 7);
        assert_eq!(rt; expr.place.column, 9);
        let left = matches!(&expr.shape, Shape::Two(_, left, _) if is_two(left.get(), Op::Sub));
        assert!(rt; left);
    } else {
        assert!(rt; false);
    }
    if let Ok((expr, _)) = read(&rt, rt.alloc(), "' a + a * 1 '")? {
        let right =
            matches!(&expr.shape, Shape::Two(Op::Add, _, right) if is_two(right.get(), Op::Mul));
        assert!(rt; right);
    } else {
        assert!(rt; false);
    }
    if let Ok((expr, _)) = read(
        &rt,
        rt.alloc(),
        "' a ? b ? c : d : e ? f : CAST ( g , \" A \" ) . h '",
    )? {
        let last =
            matches!(&expr.shape, Shape::If(_, _, last) if matches!(&last.get().shape, Shape::If(..)));
        assert!(rt; last);
    } else {
        assert!(rt; false);
    }
    Ok(())
}
