ghost use Rattle.std.specs.Prelude.{◌≡◌, ◌<◌, ◌==◌, ℕ, Bool, List, [], ◌∷◌, ◌++◌, length, MatchOption};
ghost use Rattle.std.specs.List.{AllByRecursion, position};
ghost use Rattle.host_engine.specs.Lines.{last_line, lines_in, with_feeds};
ghost use Rattle.answer_texts.specs.Lines.{IsFeedless};

/// Lines that stand one after another, each with its line feed, and what stands behind the last of them, are read as these
/// lines and that rest.
pub fn lines_and_rest()
    ensures { (ended : Bool) (lines : List (List ℕ)) (rest : List ℕ) → AllByRecursion IsFeedless lines → IsFeedless rest
        → lines_in ended (with_feeds lines ++ rest) ≡ lines ++ last_line ended rest }
{}

/// Where the first line feed is.
fn find_feed(bytes: &[u8]) -> Option<usize>
    ensures { result ≡ position (λ b. b == 10) bytes.now }
{
    bytes.iter().position(|byte| *byte == b'\n')
}

/// The next line of some bytes, without its line feed, and what follows it. What stands behind the last line feed is a
/// line where the bytes end there and it isn't empty.
pub fn next_line(ended: bool, bytes: &[u8]) -> Option<(&[u8], &[u8])>
    ensures line { MatchOption result
        (lines_in ended bytes.now ≡ [])
        (λ found. lines_in ended bytes.now ≡ found.0.now ∷ lines_in ended found.1.now) }
    ensures shorter { MatchOption result (Unit {0}) (λ found. length found.1.now < length bytes.now) }
{
    match find_feed(bytes) {
        Some(at) => Some((&bytes[..at], &bytes[at + 1..])),
        None if ended && !bytes.is_empty() => Some((bytes, &[])),
        None => None,
    }
}
