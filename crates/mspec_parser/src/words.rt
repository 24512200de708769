ghost use Rattle.std.specs.Prelude.{◌≡◌};
ghost use Rattle.std.specs.Str.{bytes_eq};
ghost use Rattle.mspec_tree.specs.Form.{is_one_of, left_out_types};
ghost use Rattle.mspec_grammar.specs.Senses.{sensed};
ghost use Rattle.mspec_grammar.specs.Faults.{left_out_fields};
ghost use Rattle.mspec_parser.specs.Words.{mark_of, first_field_words, other_field_words, field_word_of, def_word_of, array_word_of, order_word_of};
ghost use Rattle.mspec_parser.specs.Readers.{number_of, is_mark, is_word};
ghost use Rattle.mspec_parser.specs.Small.{lit_start_of};

use mspec_grammar::{Sense, Word, spells};
use mspec_lexer::Symbol;
use mspec_tree::{ByteOrder, Lit};

/// A symbol outside expressions.
#[derive(Clone, Copy)]
pub enum Mark {
    LeftBracket,
    RightBracket,
    LeftParenthesis,
    RightParenthesis,
    Quote,
    Comma,
    Equal,
}

/// The word that a field begins with.
#[derive(Clone, Copy)]
pub enum FieldWord {
    Simple,
    Discriminator,
    Const,
    Reserved,
    Implicit,
    Virtual,
    Optional,
    Checksum,
    Padding,
    Array,
}

/// The word that a definition begins with.
#[derive(Clone, Copy)]
pub enum DefWord {
    Type,
    DiscriminatedType,
    DataIo,
    Enum,
}

/// What an array's expression says.
#[derive(Clone, Copy)]
pub enum ArrayWord {
    Count,
    Length,
}

/// What a literal begins with: the whole of it, or the sign before its number.
#[derive(Clone, Copy)]
pub enum LitStart {
    Whole(Lit),
    Minus,
}

fn mark_of(symbol: Symbol) -> Option<Mark>
    ensures { result ≡ mark_of symbol }
{
    match symbol {
        Symbol::LeftBracket => Some(Mark::LeftBracket),
        Symbol::RightBracket => Some(Mark::RightBracket),
        Symbol::LeftParenthesis => Some(Mark::LeftParenthesis),
        Symbol::RightParenthesis => Some(Mark::RightParenthesis),
        Symbol::Quote => Some(Mark::Quote),
        Symbol::Comma => Some(Mark::Comma),
        Symbol::Equal => Some(Mark::Equal),
        _ => None,
    }
}

fn number_of(mark: Mark) -> u8
    ensures { result ≡ number_of mark }
{
    match mark {
        Mark::LeftBracket => 0,
        Mark::RightBracket => 1,
        Mark::LeftParenthesis => 2,
        Mark::RightParenthesis => 3,
        Mark::Quote => 4,
        Mark::Comma => 5,
        Mark::Equal => 6,
    }
}

/// Whether a token is this symbol.
pub fn is_mark(mark: Mark, sense: Sense<'_>) -> bool
    ensures { result ≡ is_mark mark (sensed sense.entry) }
{
    match sense {
        Sense::Sign(symbol) => match mark_of(symbol) {
            Some(other) => number_of(other) == number_of(mark),
            None => false,
        },
        _ => false,
    }
}

/// Whether a token is this word.
pub fn is_word(word: &[u8], sense: Sense<'_>) -> bool
    ensures { result ≡ is_word word.now (sensed sense.entry) }
{
    match sense {
        Sense::Name(bytes) => spells(bytes, word),
        _ => false,
    }
}

fn first_field_words(bytes: &[u8]) -> Option<FieldWord>
    ensures { result ≡ first_field_words bytes.now }
{
    if spells(bytes, b"simple") {
        Some(FieldWord::Simple)
    } else if spells(bytes, b"discriminator") {
        Some(FieldWord::Discriminator)
    } else if spells(bytes, b"const") {
        Some(FieldWord::Const)
    } else if spells(bytes, b"reserved") {
        Some(FieldWord::Reserved)
    } else if spells(bytes, b"implicit") {
        Some(FieldWord::Implicit)
    } else {
        None
    }
}

fn other_field_words(bytes: &[u8]) -> Option<FieldWord>
    ensures { result ≡ other_field_words bytes.now }
{
    if spells(bytes, b"virtual") {
        Some(FieldWord::Virtual)
    } else if spells(bytes, b"optional") {
        Some(FieldWord::Optional)
    } else if spells(bytes, b"checksum") {
        Some(FieldWord::Checksum)
    } else if spells(bytes, b"padding") {
        Some(FieldWord::Padding)
    } else if spells(bytes, b"array") {
        Some(FieldWord::Array)
    } else {
        None
    }
}

/// The word that a field begins with.
#[tactic(auto, unfolding(crate::specs::Words::field_word_of))]
pub fn field_word(bytes: &[u8]) -> Option<FieldWord>
    ensures { result ≡ field_word_of bytes.now }
{
    match first_field_words(bytes) {
        Some(word) => Some(word),
        None => other_field_words(bytes),
    }
}

/// The word that a definition begins with.
#[tactic(auto, unfolding(crate::specs::Words::def_word_of))]
pub fn def_word(bytes: &[u8]) -> Option<DefWord>
    ensures { result ≡ def_word_of bytes.now }
{
    if spells(bytes, b"type") {
        Some(DefWord::Type)
    } else if spells(bytes, b"discriminatedType") {
        Some(DefWord::DiscriminatedType)
    } else if spells(bytes, b"dataIo") {
        Some(DefWord::DataIo)
    } else if spells(bytes, b"enum") {
        Some(DefWord::Enum)
    } else {
        None
    }
}

/// What an array's expression says.
#[tactic(auto, unfolding(crate::specs::Words::array_word_of))]
pub fn array_word(bytes: &[u8]) -> Option<ArrayWord>
    ensures { result ≡ array_word_of bytes.now }
{
    if spells(bytes, b"count") {
        Some(ArrayWord::Count)
    } else if spells(bytes, b"length") {
        Some(ArrayWord::Length)
    } else {
        None
    }
}

/// The byte order that has this name.
#[tactic(auto, unfolding(crate::specs::Words::order_word_of))]
pub fn order_word(bytes: &[u8]) -> Option<ByteOrder>
    ensures { result ≡ order_word_of bytes.now }
{
    if spells(bytes, b"BIG_ENDIAN") {
        Some(ByteOrder::Big)
    } else if spells(bytes, b"LITTLE_ENDIAN") {
        Some(ByteOrder::Little)
    } else {
        None
    }
}

/// What a literal begins with.
pub fn lit_start(sense: Sense<'_>) -> Option<LitStart>
    ensures { result ≡ lit_start_of (sensed sense.entry) }
{
    match sense {
        Sense::Number(size) => Some(LitStart::Whole(Lit::Num {
            negative: false,
            size,
        })),
        Sense::Sign(Symbol::Minus) => Some(LitStart::Minus),
        Sense::Taken(Word::True) => Some(LitStart::Whole(Lit::Flag(true))),
        Sense::Taken(Word::False) => Some(LitStart::Whole(Lit::Flag(false))),
        _ => None,
    }
}

/// Whether a field that begins with this word is left out.
pub fn is_left_out_field(bytes: &[u8]) -> bool
    ensures { result ≡ is_one_of left_out_fields bytes.now }
{
    spells(b"manual", bytes)
        || spells(b"manualArray", bytes)
        || spells(b"abstract", bytes)
        || spells(b"batchSet", bytes)
        || spells(b"state", bytes)
        || spells(b"unknown", bytes)
        || spells(b"validation", bytes)
        || spells(b"peek", bytes)
        || spells(b"assert", bytes)
}

/// Whether the type of this name is left out.
pub fn is_left_out_type(bytes: &[u8]) -> bool
    ensures { result ≡ is_one_of left_out_types bytes.now }
{
    spells(b"string", bytes)
        || spells(b"vstring", bytes)
        || spells(b"time", bytes)
        || spells(b"date", bytes)
        || spells(b"dateTime", bytes)
}
