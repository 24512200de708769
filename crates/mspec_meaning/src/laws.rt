ghost use Rattle.std.specs.Prelude.{ℕ, ℤ, ◌≡◌, ◌++◌, Bool, List, Result, Ok, Err};
ghost use Rattle.node_tree.specs.declared.readings.Reading.{Reading};
ghost use Rattle.node_tree.specs.declared.faults.ReadWhy.{ReadWhy};
ghost use Rattle.mspec_tree.specs.declared.defs.Description.{Description};
ghost use Rattle.mspec_meaning.specs.Plain.{CanRead};
ghost use Rattle.mspec_meaning.specs.Reads.{Reads, Fault, Bad};
ghost use Rattle.mspec_meaning.specs.Shape.{HasNumbers};
ghost use Rattle.mspec_meaning.specs.Stream.{Stream, Ending};

/// Bits have at most one outcome by a description.
pub fn one_reading()
    ensures { (d : Description) (def : ℕ) (args : List ℤ) (bits : List Bool) (one other : Result Reading Fault)
        → Reads d def args bits one → Reads d def args bits other → one ≡ other }
{}

/// Bits have an outcome by each description that can be read, whether they are whole bytes or not.
pub fn some_reading()
    ensures { (d : Description) (def : ℕ) (args : List ℤ) (bits : List Bool)
        → CanRead d def args → (outcome : Result Reading Fault) × Reads d def args bits outcome }
{}

/// A reading by a description that can be read is a group of unsigned numbers, one for each field of its type.
pub fn a_number_for_each_field()
    ensures { (d : Description) (def : ℕ) (args : List ℤ) (bits : List Bool) (reading : Reading)
        → CanRead d def args → Reads d def args bits (Ok reading) → HasNumbers d def reading.node }
{}

/// More bits behind a value leave it as it is, and a refusal too; only a reading that ended too early may change.
pub fn more_bits()
    ensures read { (d : Description) (def : ℕ) (args : List ℤ) (bits more : List Bool) (reading : Reading)
        → Reads d def args bits (Ok reading) → Reads d def args (bits ++ more) (Ok reading) }
    ensures bad { (d : Description) (def : ℕ) (args : List ℤ) (bits more : List Bool) (bit : ℕ) (why : ReadWhy)
        → Reads d def args bits (Err (Bad bit why)) → Reads d def args (bits ++ more) (Err (Bad bit why)) }
{}

/// Bytes have at most one list of readings by a description, and one ending.
pub fn one_stream()
    ensures { (d : Description) (def : ℕ) (args : List ℤ) (bytes : List ℕ) (one other : List Reading) (end last : Ending)
        → Stream d def args bytes one end → Stream d def args bytes other last → (one ≡ other) × (end ≡ last) }
{}

/// Bytes have a list of readings, and an ending, by each description that can be read.
pub fn some_stream()
    ensures { (d : Description) (def : ℕ) (args : List ℤ) (bytes : List ℕ)
        → CanRead d def args → (readings : List Reading) × (ending : Ending) × Stream d def args bytes readings ending }
{}
