/// Why a text has no tree.
#[derive(Clone, Copy, Debug, PartialEq, Eq)]
pub enum ParseWhy {
    /// No text of the grammar goes on with this token.
    Unexpected,
    /// The text ends inside a definition.
    EndOfText,
    /// The token is a word of the language that this compiler leaves out.
    LeftOut,
    /// Every text that goes on with this token has an expression that is too deep.
    TooDeep,
}
