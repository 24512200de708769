use mspec_grammar::ParseWhy;
use mspec_tree::Place;

/// Why tokens have no tree: the place of the token with which they leave the grammar, or the place behind the text where they
/// end too early; or want of memory.
#[derive(Clone, Copy, Debug, PartialEq, Eq)]
pub enum ParseFault {
    At { place: Place, why: ParseWhy },
    NoMemory,
}
