//! Paths, which grow at their end. An `Err` leaves a path that begins as before.

ghost use Rattle.std.specs.Prelude.{◌≡◌, ◌++◌, codes, decimal};
ghost use Rattle.node_tree.specs.Appends.{Appends};
ghost use Rattle.mspec_listings.specs.Listings.{dot_behind, field_word};

use crate::leaves::add_number;
use std::alloc::AllocError;

fn add_dot(path: &mut Vec<u8>) -> Result<(), AllocError>
    ensures { Appends result path.old.items path.new.items (dot_behind path.old.items) }
{
    if path.is_empty() {
        Ok(())
    } else {
        path.extend_from_slice(b".")
    }
}

fn add_field_word(path: &mut Vec<u8>, name: &[u8], place: usize) -> Result<(), AllocError>
    ensures { Appends result path.old.items path.new.items (field_word name.now place) }
{
    if name.is_empty() {
        path.extend_from_slice(b"#")?;
        add_number(path, place)
    } else {
        path.extend_from_slice(name)
    }
}

/// Goes on from a group to its field of this name, which has this place in it.
pub(crate) fn enter_field(path: &mut Vec<u8>, name: &[u8], place: usize) -> Result<(), AllocError>
    ensures { Appends result path.old.items path.new.items (dot_behind path.old.items ++ field_word name.now place) }
{
    add_dot(path)?;
    add_field_word(path, name, place)
}

/// Goes on from a list to its item at this place.
pub(crate) fn enter_item(path: &mut Vec<u8>, place: usize) -> Result<(), AllocError>
    ensures { Appends result path.old.items path.new.items (codes "[" ++ (decimal place ++ codes "]")) }
{
    path.extend_from_slice(b"[")?;
    add_number(path, place)?;
    path.extend_from_slice(b"]")
}
