//! What a walker's list of characters is made of: runs of characters that are alike.

ghost use Rattle.std.specs.Prelude.{◌≡◌, ◌⊎◌, ℕ, ◌+◌, ◌<◌, ◌^◌, Bool, true, List, ◌++◌, length, take, drop, count_by};
ghost use Rattle.ew_model.specs.Runs.{NodeState, is_inserted_state, is_visible_state, has_effect};

/// Characters that follow one another and are alike in both states. None of its calls takes memory.
pub trait Run: Sized {
    /// The characters in order, each with its states.
    ghost chars: { Self → List NodeState };

    /// How many of them are inserted in what is prepared.
    ghost known: { Self → ℕ };

    /// How many of those aren't deleted there.
    ghost prepared: { Self → ℕ };

    /// How many are in the text.
    ghost effect: { Self → ℕ };

    /// The second run goes on where the first ends, and is alike.
    ghost fits: { Self → Self → Bool };

    /// The run of both.
    ghost joined: { Self → Self → Self };

    /// The number of characters.
    fn size(&self) -> u32
        ensures { result ≡ length (chars self.now) };

    /// The number of characters that are inserted in what is prepared.
    fn known_sum(&self) -> u32
        ensures { result ≡ known self.now };

    /// The number of those that aren't deleted there.
    fn prepared_sum(&self) -> u32
        ensures { result ≡ prepared self.now };

    /// The number of characters in the text.
    fn effect_sum(&self) -> u32
        ensures { result ≡ effect self.now };

    /// The first `at` characters, and the others.
    fn split(&self, at: u32) -> (Self, Self)
        requires some { 0 < at }
        requires rest { at < length (chars self.now) }
        ensures first { chars result.0 ≡ take at (chars self.now) }
        ensures second { chars result.1 ≡ drop at (chars self.now) }
        ensures known { known result.0 + known result.1 ≡ known self.now }
        ensures prepared { prepared result.0 + prepared result.1 ≡ prepared self.now }
        ensures effect { effect result.0 + effect result.1 ≡ effect self.now }
        ensures fits { fits result.0 result.1 ≡ true }
        ensures back { joined result.0 result.1 ≡ self.now };

    /// Whether the next run goes on where this one ends, and is alike.
    fn joinable(&self, next: &Self) -> bool
        ensures { result ≡ fits self.now next.now };

    /// The run of both.
    fn join(&self, next: &Self) -> Self
        requires joinable { fits self.now next.now ≡ true }
        requires short { length (chars self.now) + length (chars next.now) < 2 ^ 32 }
        ensures { result ≡ joined self.now next.now };

    // Each sum counts characters.
    ghost known_counts: { (x : Self) → known x ≡ count_by is_inserted_state (chars x) };

    ghost prepared_counts: { (x : Self) → prepared x ≡ count_by is_visible_state (chars x) };

    ghost effect_counts: { (x : Self) → effect x ≡ count_by has_effect (chars x) };

    // A run is alike throughout: each sum is 0 or the size.
    ghost known_alike: { (x : Self) → (known x ≡ 0) ⊎ (known x ≡ length (chars x)) };

    ghost prepared_alike: { (x : Self) → (prepared x ≡ 0) ⊎ (prepared x ≡ length (chars x)) };

    ghost effect_alike: { (x : Self) → (effect x ≡ 0) ⊎ (effect x ≡ length (chars x)) };

    // A join has the characters of the first and then those of the second, and their sums.
    ghost joined_chars: { (x y : Self) → fits x y ≡ true → chars (joined x y) ≡ chars x ++ chars y };

    ghost joined_known: { (x y : Self) → fits x y ≡ true → known (joined x y) ≡ known x + known y };

    ghost joined_prepared: { (x y : Self) → fits x y ≡ true → prepared (joined x y) ≡ prepared x + prepared y };

    ghost joined_effect: { (x y : Self) → fits x y ≡ true → effect (joined x y) ≡ effect x + effect y };
}
