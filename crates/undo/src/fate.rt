//! What deletions say of a character.

ghost use Rattle.std.specs.Prelude.{◌≡◌};
ghost use Rattle.undo.specs.Fates.{is_deleted_by, stays_deleted, with_deletion};

/// What the deletions of a history say of a character, where some events are undone.
#[derive(Clone, Copy, PartialEq, Eq)]
pub enum Fate {
    /// No event deletes it: it is shown.
    Shown,
    /// Undone events delete it, and no others.
    Undone,
    /// An event deletes it that isn't undone.
    Gone,
}

impl Fate {
    /// What is said with one deletion more, which is undone or not.
    pub fn with_deletion(self, undone: bool) -> Fate
        ensures { result ≡ with_deletion self undone }
    {
        match (self, undone) {
            (Fate::Gone, _) | (_, false) => Fate::Gone,
            (_, true) => Fate::Undone,
        }
    }

    /// Whether the character is deleted.
    pub fn is_deleted(self) -> bool
        ensures { result ≡ is_deleted_by self }
    {
        match self {
            Fate::Shown => false,
            Fate::Undone | Fate::Gone => true,
        }
    }

    /// Whether it stays deleted, whatever is undone.
    pub fn stays_deleted(self) -> bool
        ensures { result ≡ stays_deleted self }
    {
        match self {
            Fate::Shown | Fate::Undone => false,
            Fate::Gone => true,
        }
    }
}
