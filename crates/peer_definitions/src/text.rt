//! The text of an insertion.

ghost use Rattle.std.specs.Prelude.{◌≡◌, [], ◌∷◌, ◌++◌, true, OnOk, OnErr, encode_utf8_all};
ghost use Rattle.std.specs.Str.{all_scalars, chars};

use ew_model::NoMem;
use std::alloc::Global;
use std::marker::Model;

/// A list of characters, kept as UTF-8. Contracts see the list.
#[derive(Drop)]
pub struct Text {
    utf8: String,
}

impl Model for Text {
    ghost use Rattle.std.specs.Prelude.{List, ℕ};
    ghost use Rattle.std.specs.Str.{chars};
    ghost use Rattle.std.specs.String.{string_bytes};

    ghost Value = { List ℕ };

    ghost view = { λ t. chars (string_bytes t.utf8) };
}

impl Text {
    /// No characters. It takes no memory.
    pub fn new(alloc: Global) -> Text
        ensures { result ≡ [] }
    {
        Text {
            utf8: String::new(alloc),
        }
    }

    /// Puts one more character after the others.
    pub fn push(&mut self, ch: char) -> Result<(), NoMem>
        ensures ok { OnOk result (self.new ≡ self.old ++ ch ∷ []) }
        ensures err { OnErr result (self.new ≡ self.old) }
    {
        self.utf8.push(ch)
    }

    /// The characters as a `str`.
    pub fn as_str(&self) -> &str
        ensures utf8 { result.now ≡ encode_utf8_all self.now }
        ensures chars { chars result.now ≡ self.now }
        ensures scalars { all_scalars self.now ≡ true }
    {
        self.utf8.as_str()
    }
}
