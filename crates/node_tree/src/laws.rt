ghost use Rattle.std.specs.Prelude.{ℕ, ◌≡◌, ◌+◌, ◌*◌, ◌<◌, ◌≤◌, List, [], ◌∷◌, ◌++◌, length, take, drop, reverse};
ghost use Rattle.node_tree.specs.Bits.{big_number, bits_of, little_number};

/// Each byte has eight bits, in the order of the bytes: the first bytes have the first bits, and the others the rest.
pub fn bits_by_bytes()
    ensures length { (bytes : List ℕ) → length (bits_of bytes) ≡ 8 * length bytes }
    ensures front { (n : ℕ) (bytes : List ℕ) → n ≤ length bytes → take (8 * n) (bits_of bytes) ≡ bits_of (take n bytes) }
    ensures rest { (n : ℕ) (bytes : List ℕ) → drop (8 * n) (bits_of bytes) ≡ bits_of (drop n bytes) }
{}

/// A byte behind others spells their number times 256, and its own.
pub fn numbers_by_bytes()
    ensures { (bytes : List ℕ) (byte : ℕ) → byte < 256
        → big_number (bits_of (bytes ++ byte ∷ [])) ≡ 256 * big_number (bits_of bytes) + byte }
{}

/// What bytes spell with the least significant byte first is what they spell in reverse the other way.
pub fn little_numbers_by_bytes()
    ensures { (bytes : List ℕ) → little_number (bits_of bytes) ≡ big_number (bits_of (reverse bytes)) }
{}
