ghost use Rattle.std.specs.Prelude.{ℕ, ◌≡◌, ◌≤◌, ◌+◌, ◌%◌, ◌^◌, ◌<◌, Bool, List, length, take, drop};
ghost use Rattle.bit_base.specs.declared.orders.Order.{Order};
ghost use Rattle.bit_base.specs.declared.orders.Order.TheVariants.{Little};
ghost use Rattle.bit_base.specs.Numbers.{number, spelling, put_bits};

/// A number that is put is read back, and nothing else has changed.
pub fn put_and_read()
    ensures spelled { (order : Order) (width value : ℕ) → value < 2 ^ width → (order ≡ Little → width % 8 ≡ 0)
        → number order (spelling order width value) ≡ value }
    ensures length { (order : Order) (width value : ℕ) → length (spelling order width value) ≡ width }
    ensures there { (old bits : List Bool) (bit : ℕ) → bit + length bits ≤ length old
        → take (length bits) (drop bit (put_bits old bit bits)) ≡ bits }
    ensures before { (old bits : List Bool) (bit : ℕ) → bit + length bits ≤ length old
        → take bit (put_bits old bit bits) ≡ take bit old }
    ensures behind { (old bits : List Bool) (bit : ℕ) → bit + length bits ≤ length old
        → drop (bit + length bits) (put_bits old bit bits) ≡ drop (bit + length bits) old }
    ensures read { (order : Order) (old : List Bool) (bit width value : ℕ) → value < 2 ^ width
        → (order ≡ Little → width % 8 ≡ 0) → bit + width ≤ length old
        → number order (take width (drop bit (put_bits old bit (spelling order width value)))) ≡ value }
{}

/// Bits have one spelling, so a number that is put where it was read changes nothing.
pub fn read_and_put()
    ensures one_spelling { (order : Order) (bits : List Bool) → (order ≡ Little → length bits % 8 ≡ 0)
        → spelling order (length bits) (number order bits) ≡ bits }
    ensures fits { (order : Order) (bits : List Bool) → number order bits < 2 ^ length bits }
    ensures same { (order : Order) (old : List Bool) (bit width : ℕ) → (order ≡ Little → width % 8 ≡ 0)
        → bit + width ≤ length old
        → put_bits old bit (spelling order width (number order (take width (drop bit old)))) ≡ old }
{}
