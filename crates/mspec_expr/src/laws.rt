ghost use Rattle.std.specs.Prelude.{ℕ, ℤ, ◌≤◌, Bool, List, ◌++◌, ◌≡◌, Ok, Err, Some, true};
ghost use Rattle.node_tree.specs.declared.nodes.Node.{Node};
ghost use Rattle.node_tree.specs.declared.readings.Reading.{Reading};
ghost use Rattle.node_tree.specs.declared.faults.ReadWhy.{ReadWhy};
ghost use Rattle.mspec_tree.specs.Depth.{depth};
ghost use Rattle.mspec_tree.specs.declared.exprs.Expr.{Expr};
ghost use Rattle.mspec_tree.specs.declared.defs.Description.{Description};
ghost use Rattle.mspec_expr.specs.declared.kinds.Range.{Range};
ghost use Rattle.mspec_expr.specs.declared.kinds.Meant.{Meant};
ghost use Rattle.mspec_expr.specs.declared.scopes.Env.{Env};
ghost use Rattle.mspec_expr.specs.declared.scopes.Scope.{Scope};
ghost use Rattle.mspec_expr.specs.Contexts.{Bad};
ghost use Rattle.mspec_expr.specs.Reads.{reads};
ghost use Rattle.mspec_expr.specs.Values.{Sight, worth_at};
ghost use Rattle.mspec_expr.specs.Sizes.{kept_value, kept_worth, value, worth};
ghost use Rattle.mspec_expr.specs.Ranges.{range_found, lies_in, widest};
ghost use Rattle.mspec_expr.specs.Fits.{IsIn, AskedFit, Fits, sight_in, values_of};
ghost use Rattle.mspec_expr.specs.Stream.{Stream, Ending};
ghost use Rattle.mspec_expr.specs.Worked.{Expressions, Greatest, Optionals, Numbers, Switches, CountArrays, LengthArrays, Arguments, Checksums, Paddings, Lengths, Depths, Casts, Refusals};

/// Where nothing is wrong with an expression, its value lies in its range, wherever all that it asks for lies in its own. No
/// such range leaves -2^63 to 2^64 - 1.
pub fn values_lie_in_ranges()
    ensures values { (d : Description) (scope : Scope) (sight : Sight) (e : Expr) (meant : Meant) (r : Range) (n : ℤ)
        → AskedFit d scope sight → range_found d scope e ≡ Ok meant → values_of d meant ≡ Some r
        → (value d e sight).outcome ≡ Ok n → IsIn r n }
    ensures ranges { (d : Description) (meant : Meant) (r : Range) → values_of d meant ≡ Some r → lies_in widest r ≡ true }
{}

/// Where an environment fits, no number on the way to the value of an expression in which nothing is wrong leaves -2^63 to
/// 2^64 - 1.
pub fn values_stay_inside()
    ensures worths { (d : Description) (scope : Scope) (env : Env) (e : Expr) (meant : Meant) → Fits d scope env → range_found d scope e ≡ Ok meant
        → (kept_worth d e (sight_in scope env)).outcome ≡ (worth d e (sight_in scope env)).outcome }
    ensures values { (d : Description) (scope : Scope) (env : Env) (e : Expr) (meant : Meant) → Fits d scope env → range_found d scope e ≡ Ok meant
        → (kept_value d e (sight_in scope env)).outcome ≡ (value d e (sight_in scope env)).outcome }
{}

/// An expression is worth the same at each depth that is enough for it, so the greatest depth of a description's expressions
/// bounds nothing.
pub fn depth_is_enough()
    ensures { (d : Description) (sizes : Meant → Node → ℕ) (e : Expr) (sight : Sight) (n m : ℕ)
        → depth e ≤ n → depth e ≤ m → worth_at n d sizes e sight ≡ worth_at m d sizes e sight }
{}

/// More bits behind a value leave it as it is, and a refusal too; only a reading that ended too early may change.
pub fn more_bits()
    ensures read { (d : Description) (def : ℕ) (args : List ℤ) (bits more : List Bool) (reading : Reading)
        → reads d def args bits ≡ Ok reading → reads d def args (bits ++ more) ≡ Ok reading }
    ensures bad { (d : Description) (def : ℕ) (args : List ℤ) (bits more : List Bool) (bit : ℕ) (why : ReadWhy)
        → reads d def args bits ≡ Err (Bad bit why) → reads d def args (bits ++ more) ≡ Err (Bad bit why) }
{}

/// Bytes have one list of readings by a description, and one ending.
pub fn one_stream()
    ensures one { (d : Description) (def : ℕ) (args : List ℤ) (bytes : List ℕ) (one other : List Reading) (end last : Ending)
        → Stream d def args bytes one end → Stream d def args bytes other last → (one ≡ other) × (end ≡ last) }
    ensures some { (d : Description) (def : ℕ) (args : List ℤ) (bytes : List ℕ)
        → (readings : List Reading) × (ending : Ending) × Stream d def args bytes readings ending }
{}

/// Worked examples of reading and writing, for each group of the kinds of fields: a value that is there, and one that is
/// refused. `specs/Examples.antt` has their descriptions.
pub fn worked_examples()
    ensures expressions { Expressions }
    ensures greatest { Greatest }
    ensures optionals { Optionals }
    ensures numbers { Numbers }
    ensures switches { Switches }
    ensures count_arrays { CountArrays }
    ensures length_arrays { LengthArrays }
    ensures arguments { Arguments }
    ensures checksums { Checksums }
    ensures paddings { Paddings }
    ensures lengths { Lengths }
    ensures depths { Depths }
    ensures casts { Casts }
    ensures refusals { Refusals }
{}
