ghost use Rattle.std.specs.Prelude.{◌≡◌, ◌+◌, ◌≤◌, false, IfOk, replicate, slice_index_or};
ghost use Rattle.std.specs.List.{range_with_len};
ghost use Rattle.std.specs.VecDeque.{deque_capacity};

use std::alloc::{AllocError, Global};
use std::collections::VecDeque;

/// The references from 1 to `count`.
pub(crate) fn all_references(alloc: Global, count: u16) -> Result<VecDeque<u16>, AllocError>
    ensures items { IfOk result (λ free. free.items ≡ range_with_len 1 count) }
    ensures room { IfOk result (λ free. count ≤ deque_capacity free) }
{
    let mut free = VecDeque::with_capacity(alloc, usize::from(count))?;
    for reference in 0..count {
        free.push_back(reference + 1)?;
    }
    Ok(free)
}

/// A mark for each reference from 0 to `count`, none of which is set.
pub(crate) fn no_marks(alloc: Global, count: u16) -> Result<Vec<bool>, AllocError>
    ensures { IfOk result (λ marks. marks.items ≡ replicate (count + 1) false) }
{
    vec![in alloc; false; usize::from(count) + 1]
}

/// Whether a reference is marked. One past the marks isn't.
pub(crate) fn is_marked(marks: &[bool], reference: u16) -> bool
    ensures { result ≡ slice_index_or marks.now reference false }
{
    marks.get(usize::from(reference)).copied().unwrap_or(false)
}
