ghost use Rattle.std.specs.Prelude.{◌≡◌};
ghost use Rattle.std.specs.Str.{bytes_eq};
ghost use Rattle.mspec_grammar.specs.Meanings.{type_word_of, value_word_of, measure_word_of, word_of};

/// A word that no name may be.
#[derive(Clone, Copy, Debug, PartialEq, Eq)]
pub enum Word {
    Bit,
    Byte,
    Uint,
    Int,
    Float,
    True,
    False,
    Null,
    Count,
    Cast,
    CurPos,
    LengthInBytes,
    LastItem,
    SumBytes,
    XorBytes,
}

/// Whether the bytes are these.
pub fn spells(bytes: &[u8], word: &[u8]) -> bool
    ensures { result ≡ bytes_eq bytes.now word.now }
{
    bytes == word
}

fn type_word(bytes: &[u8]) -> Option<Word>
    ensures { result ≡ type_word_of bytes.now }
{
    if spells(bytes, b"bit") {
        Some(Word::Bit)
    } else if spells(bytes, b"byte") {
        Some(Word::Byte)
    } else if spells(bytes, b"uint") {
        Some(Word::Uint)
    } else if spells(bytes, b"int") {
        Some(Word::Int)
    } else if spells(bytes, b"float") {
        Some(Word::Float)
    } else {
        None
    }
}

fn value_word(bytes: &[u8]) -> Option<Word>
    ensures { result ≡ value_word_of bytes.now }
{
    if spells(bytes, b"true") {
        Some(Word::True)
    } else if spells(bytes, b"false") {
        Some(Word::False)
    } else if spells(bytes, b"null") {
        Some(Word::Null)
    } else if spells(bytes, b"curPos") {
        Some(Word::CurPos)
    } else if spells(bytes, b"lastItem") {
        Some(Word::LastItem)
    } else {
        None
    }
}

fn measure_word(bytes: &[u8]) -> Option<Word>
    ensures { result ≡ measure_word_of bytes.now }
{
    if spells(bytes, b"COUNT") {
        Some(Word::Count)
    } else if spells(bytes, b"CAST") {
        Some(Word::Cast)
    } else if spells(bytes, b"lengthInBytes") {
        Some(Word::LengthInBytes)
    } else if spells(bytes, b"SUM_BYTES") {
        Some(Word::SumBytes)
    } else if spells(bytes, b"XOR_BYTES") {
        Some(Word::XorBytes)
    } else {
        None
    }
}

#[tactic(auto, unfolding(crate::specs::Meanings::word_of))]
/// The word that these bytes spell, if it is one that no name may be.
pub fn taken_word(bytes: &[u8]) -> Option<Word>
    ensures { result ≡ word_of bytes.now }
{
    match type_word(bytes) {
        Some(word) => Some(word),
        None => match value_word(bytes) {
            Some(word) => Some(word),
            None => measure_word(bytes),
        },
    }
}
