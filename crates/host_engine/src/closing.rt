ghost use Rattle.std.specs.Prelude.{◌≡◌, ◌++◌, codes, Some, IfOk, IfErr};
ghost use Rattle.std.specs.Fmt.{decimal};
ghost use Rattle.host_engine.specs.Endings.{ending_of, why_of};
ghost use Rattle.host_engine.specs.Preparing.{refusal_said};
ghost use Rattle.host_engine.specs.Statuses.{number_of};
ghost use Rattle.host_engine.specs.Texts.{check_why_text, expr_why_text, grammar_why_text, lex_why_text, text_why_text};
ghost use Rattle.host_engine.specs.Tool.{why_text, description_refused, last_said, refusal_of_line, script_last};

use crate::describing::TextWhy;
use crate::faults::Cut;
use crate::inputs::How;
use crate::preparing::Refusal;
use crate::statuses::Status;
use crate::values::{Rest, ValueWhy};
use answer_texts::read_why_text;
use itoa::Buffer;
use mspec_check::CheckWhy;
use mspec_expr::ExprWhy;
use mspec_grammar::ParseWhy;
use mspec_lexer::LexWhy;
use mspec_tree::Place;
use script_replay::ScriptEnd;
use std::alloc::{AllocError, Global};

/// The number of the line that must stand.
const MUST_STAND: u64 = 1;

/// The last line where the input failed.
const READ_FAULT_LINE: &[u8] = b"read fault\n";

/// The last line where the input has too many bytes.
const TOO_LONG_LINE: &[u8] = b"input too long\n";

/// The line of a description that is outside the first form.
const NOT_BUILT_LINE: &[u8] = b"description refused 1:1 NotBuilt\n";

fn why_text(why: ValueWhy) -> &'static [u8]
    ensures { result.now ≡ why_text (why_of why) }
{
    match why {
        ValueWhy::Reading(why) => read_why_text(why),
        ValueWhy::PartOfByte => b"Unaligned",
    }
}

fn refused_value_line(alloc: Global, bit: u64, why: ValueWhy) -> Result<Vec<u8>, AllocError>
    ensures { IfOk result (λ line.
        line.items ≡ codes "value refused " ++ decimal bit ++ codes " " ++ why_text (why_of why) ++ codes "\n") }
{
    let mut buffer = Buffer::new();
    let mut line = Vec::from_slice(alloc, b"value refused ")?;
    line.extend_from_slice(buffer.format(bit).as_bytes())?;
    line.extend_from_slice(b" ")?;
    line.extend_from_slice(why_text(why))?;
    line.extend_from_slice(b"\n")?;
    Ok(line)
}

fn numbered_line(alloc: Global, words: &[u8], number: u64) -> Result<Vec<u8>, AllocError>
    ensures { IfOk result (λ line. line.items ≡ words.now ++ decimal number ++ codes "\n") }
{
    let mut buffer = Buffer::new();
    let mut line = Vec::from_slice(alloc, words)?;
    line.extend_from_slice(buffer.format(number).as_bytes())?;
    line.extend_from_slice(b"\n")?;
    Ok(line)
}

/// Adds a last line and answers its status. An `Err` changes nothing.
fn add_last(gathered: &mut Vec<u8>, line: &[u8], status: Status) -> Result<Status, AllocError>
    ensures closed { IfOk result (λ answer. (gathered.new.items ≡ gathered.old.items ++ line.now) × (answer ≡ status)) }
    ensures unchanged { IfErr result (λ _. gathered.new.items ≡ gathered.old.items) }
{
    gathered.extend_from_slice(line)?;
    Ok(status)
}

/// Adds the last line of values that end so, in an input that was left so, and answers the status. An `Err`
/// changes nothing.
pub fn close(
    alloc: Global,
    gathered: &mut Vec<u8>,
    how: How,
    rest: Rest,
) -> Result<Status, AllocError>
    ensures closed { IfOk result (λ status. let said = last_said (Some how) (ending_of rest) in
        (gathered.new.items ≡ gathered.old.items ++ said.text) × (number_of status ≡ said.status)) }
    ensures unchanged { IfErr result (λ _. gathered.new.items ≡ gathered.old.items) }
{
    match (rest, how) {
        (Rest::Bad { bit, why }, _) => add_last(
            gathered,
            &refused_value_line(alloc, bit, why)?,
            Status::ValueRefused,
        ),
        (_, How::Failed) => add_last(gathered, READ_FAULT_LINE, Status::ReadFault),
        (_, How::Over) => add_last(gathered, TOO_LONG_LINE, Status::TooLong),
        (Rest::Short { left }, How::Ended) => {
            add_last(
                gathered,
                &numbered_line(alloc, b"truncated ", left)?,
                Status::Truncated,
            )
        }
        (Rest::Whole, How::Ended) => Ok(Status::Well),
    }
}

fn refuse_line(alloc: Global, gathered: &mut Vec<u8>, line: u64) -> Result<Status, AllocError>
    ensures closed { IfOk result (λ status.
        (gathered.new.items ≡ gathered.old.items ++ (refusal_of_line line).text)
        × (status ≡ Status.LineRefused)) }
    ensures unchanged { IfErr result (λ _. gathered.new.items ≡ gathered.old.items) }
{
    add_last(
        gathered,
        &numbered_line(alloc, b"line refused ", line)?,
        Status::LineRefused,
    )
}

/// Adds the last line of a script whose lines end so, in an input that was left so, and answers the status. An
/// `Err` changes nothing.
pub fn close_script(
    alloc: Global,
    gathered: &mut Vec<u8>,
    how: How,
    end: ScriptEnd,
) -> Result<Status, AllocError>
    ensures closed { IfOk result (λ status. let said = script_last (Some how) end in
        (gathered.new.items ≡ gathered.old.items ++ said.text) × (number_of status ≡ said.status)) }
    ensures unchanged { IfErr result (λ _. gathered.new.items ≡ gathered.old.items) }
{
    match (how, end) {
        (_, ScriptEnd::Refused { line }) => refuse_line(alloc, gathered, line),
        (How::Failed, _) => add_last(gathered, READ_FAULT_LINE, Status::ReadFault),
        (How::Over, _) => add_last(gathered, TOO_LONG_LINE, Status::TooLong),
        (How::Ended, ScriptEnd::Answered { next, entries }) => {
            if next == MUST_STAND {
                refuse_line(alloc, gathered, next)
            } else {
                add_last(
                    gathered,
                    &numbered_line(alloc, b"entries ", entries)?,
                    Status::Well,
                )
            }
        }
    }
}

/// The word of why a text has no tokens.
fn lex_why_text(why: LexWhy) -> &'static [u8]
    ensures { result.now ≡ lex_why_text why }
{
    match why {
        LexWhy::TextTooLong => b"TextTooLong",
        LexWhy::Character => b"Character",
        LexWhy::WideNumber => b"WideNumber",
        LexWhy::OpenComment => b"OpenComment",
    }
}

/// The word of why tokens have no tree.
fn grammar_why_text(why: ParseWhy) -> &'static [u8]
    ensures { result.now ≡ grammar_why_text why }
{
    match why {
        ParseWhy::Unexpected => b"Unexpected",
        ParseWhy::EndOfText => b"EndOfText",
        ParseWhy::LeftOut => b"LeftOut",
        ParseWhy::TooDeep => b"TooDeep",
    }
}

/// The word of what is wrong with an expression.
fn expr_why_text(why: ExprWhy) -> &'static [u8]
    ensures { result.now ≡ expr_why_text why }
{
    match why {
        ExprWhy::TooWide => b"TooWide",
        ExprWhy::DivisorMayBeZero => b"DivisorMayBeZero",
        ExprWhy::OperandRange => b"OperandRange",
        ExprWhy::UnknownName => b"UnknownName",
        ExprWhy::KindMismatch => b"KindMismatch",
    }
}

/// The word of what is wrong with a description.
fn check_why_text(why: CheckWhy) -> &'static [u8]
    ensures { result.now ≡ check_why_text why }
{
    match why {
        CheckWhy::Expr(why) => expr_why_text(why),
        CheckWhy::DoubledName => b"DoubledName",
        CheckWhy::UnknownType => b"UnknownType",
        CheckWhy::WidthRange => b"WidthRange",
        CheckWhy::LittleWidth => b"LittleWidth",
        CheckWhy::ConstRange => b"ConstRange",
        CheckWhy::SwitchCount => b"SwitchCount",
        CheckWhy::CaseKey => b"CaseKey",
        CheckWhy::Arguments => b"Arguments",
        CheckWhy::PaddingScope => b"PaddingScope",
        CheckWhy::Limit => b"Limit",
    }
}

/// The word of why a text is refused.
fn text_why_text(why: TextWhy) -> &'static [u8]
    ensures { result.now ≡ text_why_text why }
{
    match why {
        TextWhy::Lex(why) => lex_why_text(why),
        TextWhy::Grammar(why) => grammar_why_text(why),
        TextWhy::Rule(why) => check_why_text(why),
    }
}

fn refused_description_line(alloc: Global, place: Place, word: &[u8]) -> Result<Vec<u8>, AllocError>
    ensures { IfOk result (λ line. line.items ≡ (description_refused place word.now).text) }
{
    let mut buffer = Buffer::new();
    let mut line = Vec::from_slice(alloc, b"description refused ")?;
    line.extend_from_slice(buffer.format(place.line).as_bytes())?;
    line.extend_from_slice(b":")?;
    line.extend_from_slice(buffer.format(place.column).as_bytes())?;
    line.extend_from_slice(b" ")?;
    line.extend_from_slice(word)?;
    line.extend_from_slice(b"\n")?;
    Ok(line)
}

/// Adds the line of a refusal and answers the status. An `Err`, which want of memory is too, changes nothing.
fn add_refusal(
    alloc: Global,
    gathered: &mut Vec<u8>,
    refusal: Refusal,
) -> Result<Status, AllocError>
    ensures said { IfOk result (λ status. let said = refusal_said refusal in
        (gathered.new.items ≡ gathered.old.items ++ said.text) × (number_of status ≡ said.status)) }
    ensures memory { IfOk result (λ _. refusal ≡ Refusal.NoMemory → ⊥) }
    ensures unchanged { IfErr result (λ _. gathered.new.items ≡ gathered.old.items) }
{
    match refusal {
        Refusal::WordsRefused => add_last(gathered, b"words refused\n", Status::WordsRefused),
        Refusal::FileFault => add_last(gathered, b"file fault\n", Status::FileFault),
        Refusal::TextRefused { place, why } => add_last(
            gathered,
            &refused_description_line(alloc, place, text_why_text(why))?,
            Status::DescriptionRefused,
        ),
        Refusal::NotBuilt => add_last(gathered, NOT_BUILT_LINE, Status::DescriptionRefused),
        Refusal::TypeRefused => add_last(gathered, b"type refused\n", Status::TypeRefused),
        Refusal::NoMemory => Err(AllocError),
    }
}

/// Adds the line of a refusal and answers the status. An `Err` changes nothing.
pub fn say(alloc: Global, gathered: &mut Vec<u8>, refusal: Refusal) -> Result<Status, Cut>
    ensures said { IfOk result (λ status. let said = refusal_said refusal in
        (gathered.new.items ≡ gathered.old.items ++ said.text) × (number_of status ≡ said.status)) }
    ensures memory { IfOk result (λ _. refusal ≡ Refusal.NoMemory → ⊥) }
    ensures unchanged { IfErr result (λ cut. (cut ≡ Cut.NoMemory) × (gathered.new.items ≡ gathered.old.items)) }
{
    let status = add_refusal(alloc, gathered, refusal)?;
    Ok(status)
}
