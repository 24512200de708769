ghost use Rattle.std.specs.Prelude.{◌≡◌, ◌≤◌, ◌↔◌, [], ◌∷◌, ◌++◌, length, map, slice_get, IfSome, IsNone, IsTrue, OnOk, OnErr};
ghost use Rattle.std.specs.String.{string_bytes};

use std::alloc::{AllocError, Global};
use std::marker::Model;

/// A list of owned texts, each seen as its bytes. It is made from a `Vec`, and gives it back, without
/// taking memory.
#[derive(Debug, Drop)]
pub struct StringList {
    items: Vec<String>,
}

impl Model for StringList {
    ghost use Rattle.std.specs.Prelude.{ℕ, List, map};
    ghost use Rattle.std.specs.String.{string_bytes};

    ghost Value = { List (List ℕ) };

    ghost view = { λ list. map string_bytes list.items.items };
}

impl StringList {
    /// The empty list. It takes no memory.
    pub fn new(alloc: Global) -> StringList
        ensures { result ≡ [] }
    {
        StringList {
            items: Vec::new(alloc),
        }
    }

    pub fn from_vec(items: Vec<String>) -> StringList
        ensures { result ≡ map string_bytes items.items }
    {
        StringList { items }
    }

    pub fn into_vec(self) -> Vec<String>
        ensures { map string_bytes result.items ≡ self }
    {
        let StringList { items } = self;
        items
    }

    /// Adds a text at the end. An `Err` changes nothing.
    pub fn push(&mut self, text: String) -> Result<(), AllocError>
        ensures ok { OnOk result (self.new ≡ self.old ++ string_bytes text ∷ []) }
        ensures err { OnErr result (self.new ≡ self.old) }
    {
        self.items.push(text)?;
        Ok(())
    }

    pub fn len(&self) -> usize
        ensures { result ≡ length self.now }
    {
        self.items.len()
    }

    pub fn is_empty(&self) -> bool
        ensures { IsTrue result ↔ (self.now ≡ []) }
    {
        self.items.is_empty()
    }

    /// The text at an index from 0.
    pub fn get(&self, at: usize) -> Option<&str>
        ensures text { IfSome result (λ text. slice_get self.now at ≡ Some text.now) }
        ensures none { IsNone result ↔ (length self.now ≤ at) }
    {
        self.items.get(at).map(String::as_str)
    }
}
