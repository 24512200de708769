//! What a device holds.

use node_tree::OwnedList;

/// Registers of 16 bits.
pub type WordList = OwnedList<u16>;

/// Coils, or discrete inputs.
pub type FlagList = OwnedList<bool>;

/// What a device holds, each list from address 0 on: holding and input registers, coils and discrete inputs. To a request that begins at
/// the address `silent` it says nothing.
#[derive(Debug, Drop)]
pub struct Image {
    pub holding: WordList,
    pub input: WordList,
    pub coils: FlagList,
    pub discrete: FlagList,
    pub silent: Option<u16>,
}
