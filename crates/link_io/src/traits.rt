ghost use Rattle.std.specs.Prelude.{◌≡◌, ◌<◌, ◌≤◌, ℕ, List, length, take, drop, None, Ok, IfOk, OnOk, OnErr, IfSome, IsErr, IsTrue};
ghost use Rattle.link_io.specs.Counts.{Rose};
ghost use Rattle.link_io.specs.Streams.{SourceSeen, SinkSeen, ShelfSeen, LeavesFiles, after_giving, AreNext, IsAtEnd, after_taking};

/// A stream or a file failed.
#[derive(Clone, Copy, Debug, PartialEq, Eq)]
pub struct Failed;

/// Where bytes come from.
pub trait Source {
    /// What it shows: its bytes, if it tells them, and its counts of ends and of faults.
    ghost seen: { Self → SourceSeen };

    /// Takes bytes to the front of `to` and answers how many; 0 is the end. Behind these bytes, and after a fault, `to` may
    /// hold anything.
    fn read(&mut self, to: &mut [u8]) -> Result<usize, Failed>
        requires { 0 < length to.old }
        ensures count { IfOk result (λ n. n ≤ length to.new) }
        ensures next { IfOk result (λ n. AreNext (take n to.new) (seen self.old).tape) }
        ensures given { IfOk result (λ n. (seen self.new).tape ≡ after_giving (take n to.new) (seen self.old).tape) }
        ensures at_end { result ≡ Ok 0 → IsAtEnd (seen self.old).tape }
        ensures end_counted { result ≡ Ok 0 → Rose (seen self.old).ends (seen self.new).ends }
        ensures no_end { IfOk result (λ n. 0 < n → (seen self.new).ends ≡ (seen self.old).ends) }
        ensures ends_grow { (seen self.old).ends ≤ (seen self.new).ends }
        ensures no_fault { OnOk result ((seen self.new).faults ≡ (seen self.old).faults) }
        ensures failed { OnErr result (Rose (seen self.old).faults (seen self.new).faults) }
        ensures faults_grow { (seen self.old).faults ≤ (seen self.new).faults }
        ensures failed_no_end { OnErr result ((seen self.new).ends ≡ (seen self.old).ends) }
        ensures failed_gives_nothing { OnErr result ((seen self.new).tape ≡ (seen self.old).tape) };
}

/// Where bytes go.
pub trait Sink {
    /// What it shows: the bytes that it holds, if it tells them, and its count of faults.
    ghost seen: { Self → SinkSeen };

    /// Puts the front of `from` out and answers how many bytes went. 0 is a fault too.
    fn write(&mut self, from: &[u8]) -> Result<usize, Failed>
        requires { 0 < length from.now }
        ensures count { IfOk result (λ n. n ≤ length from.now) }
        ensures held { IfOk result (λ n. (seen self.new).held ≡ after_taking (take n from.now) (seen self.old).held) }
        ensures no_fault { IfOk result (λ n. 0 < n → (seen self.new).faults ≡ (seen self.old).faults) }
        ensures nothing { result ≡ Ok 0 → Rose (seen self.old).faults (seen self.new).faults }
        ensures failed { OnErr result (Rose (seen self.old).faults (seen self.new).faults) }
        ensures failed_puts_nothing { OnErr result ((seen self.new).held ≡ (seen self.old).held) }
        ensures faults_grow { (seen self.old).faults ≤ (seen self.new).faults };

    /// Hands on what was put. It leaves what the sink holds.
    fn flush(&mut self) -> Result<(), Failed>
        ensures held { (seen self.new).held ≡ (seen self.old).held }
        ensures no_fault { OnOk result ((seen self.new).faults ≡ (seen self.old).faults) }
        ensures failed { OnErr result (Rose (seen self.old).faults (seen self.new).faults) }
        ensures faults_grow { (seen self.old).faults ≤ (seen self.new).faults };
}

/// Files that are read by name.
pub trait Shelf {
    /// What it shows: its files and names without a file, if it tells them, and a count of faults for each name.
    ghost seen: { Self → ShelfSeen };

    /// Two names that are counted together, where a shelf keeps one number for several.
    ghost counts_with: { List ℕ → List ℕ → Type 0 };

    /// Names that are counted together share one count.
    ghost share_a_count: { (shelf : Self) (one other : List ℕ) → counts_with one other
        → (seen shelf).faults one ≡ (seen shelf).faults other };

    /// Where it tells that there is no file of a name, it tells no bytes for that name.
    ghost lacks_no_file: { (shelf : Self) (name : List ℕ) → IsTrue ((seen shelf).lacks name) → (seen shelf).file name ≡ None };

    /// Takes the bytes of the named file from the byte `from` on to the front of `to`, and answers how many; 0 comes only at
    /// or past the file's end. Behind these bytes, and after a fault, `to` may hold anything.
    fn read_at(&mut self, name: &str, from: u64, to: &mut [u8]) -> Result<usize, Failed>
        requires { 0 < length to.old }
        ensures count { IfOk result (λ n. n ≤ length to.new) }
        ensures content { IfOk result (λ n.
            IfSome ((seen self.old).file name.now) (λ bytes. take n to.new ≡ take n (drop from bytes))) }
        ensures at_end { result ≡ Ok 0 → IfSome ((seen self.old).file name.now) (λ bytes. length bytes ≤ from) }
        ensures lacking { IsTrue ((seen self.old).lacks name.now) → IsErr result }
        ensures files { LeavesFiles (seen self.old) (seen self.new) }
        ensures no_fault { OnOk result ((other : List ℕ) → (seen self.new).faults other ≡ (seen self.old).faults other) }
        ensures failed { OnErr result (Rose ((seen self.old).faults name.now) ((seen self.new).faults name.now)) }
        ensures others { (other : List ℕ) → (counts_with name.now other → ⊥)
            → (seen self.new).faults other ≡ (seen self.old).faults other }
        ensures faults_grow { (other : List ℕ) → (seen self.old).faults other ≤ (seen self.new).faults other };
}
