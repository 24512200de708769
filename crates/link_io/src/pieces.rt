ghost use Rattle.std.specs.Prelude.{◌≡◌, ◌++◌, length, take, drop, min};

/// Copies the front of `from` to the front of `to`, at most so many bytes, and answers how many.
pub(crate) fn copy_front(to: &mut [u8], from: &[u8], most: usize) -> usize
    ensures how_many { result ≡ min (length to.old) (min (length from.now) most) }
    ensures copied { to.new ≡ take result from.now ++ drop result to.old }
{
    let count = to.len().min(from.len()).min(most);
    to[..count].copy_from_slice(&from[..count]);
    count
}

/// The bytes from an offset on; none at or past the end.
pub(crate) fn rest_from(bytes: &[u8], from: u64) -> &[u8]
    ensures { result.now ≡ drop from bytes.now }
{
    if from < bytes.len() as u64 {
        &bytes[from as usize..]
    } else {
        &[]
    }
}
