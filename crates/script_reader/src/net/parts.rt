//! Names and numbers of a line.

ghost use Rattle.std.specs.Prelude.{◌≡◌, ◌≢◌, ℕ, ◌<◌, ◌^◌, List, ◌∷◌, ◌++◌, true, false, decimal, IfSome, IfNone};
ghost use Rattle.ew_model.specs.Names.{is_name};

use crate::words::{read_number, split_once};
use ew_model::name::Name;

/// The name that the word spells.
pub(crate) fn read_name(word: &[u8]) -> Option<Name>
    ensures name { IfSome result (λ name. (is_name name ≡ true) × (name ≡ word.now)) }
    ensures none { IfNone result (is_name word.now ≡ false) }
{
    Name::read(word).ok()
}

/// Two names with a space between them.
pub(crate) fn read_names(words: &[u8]) -> Option<(Name, Name)>
    ensures names { IfSome result (λ names. (is_name names.0 ≡ true) × (is_name names.1 ≡ true) × (names.0 ++ 32 ∷ names.1 ≡ words.now)) }
    ensures none { IfNone result ((a b : List ℕ) → is_name a ≡ true → is_name b ≡ true → a ++ 32 ∷ b ≢ words.now) }
{
    let (first, second) = split_once(words, b' ')?;
    Some((read_name(first)?, read_name(second)?))
}

/// A name and a number with a space between them.
pub(crate) fn read_name_and_number(words: &[u8]) -> Option<(Name, u32)>
    ensures words { IfSome result (λ x. (is_name x.0 ≡ true) × (x.0 ++ 32 ∷ decimal x.1 ≡ words.now)) }
    ensures none { IfNone result ((a : List ℕ) (n : ℕ) → is_name a ≡ true → n < 2 ^ 32 → a ++ 32 ∷ decimal n ≢ words.now) }
{
    let (first, second) = split_once(words, b' ')?;
    Some((read_name(first)?, read_number(second)?))
}

/// Two names and two numbers, with a space between each and the next.
pub(crate) fn read_names_and_numbers(words: &[u8]) -> Option<(Name, Name, u32, u32)>
    ensures words { IfSome result (λ x. (is_name x.0 ≡ true) × (is_name x.1 ≡ true) × (x.0 ++ 32 ∷ (x.1 ++ 32 ∷ (decimal x.2 ++ 32 ∷ decimal x.3)) ≡ words.now)) }
    ensures none { IfNone result ((a b : List ℕ) (m n : ℕ) → is_name a ≡ true → is_name b ≡ true → m < 2 ^ 32 → n < 2 ^ 32 → a ++ 32 ∷ (b ++ 32 ∷ (decimal m ++ 32 ∷ decimal n)) ≢ words.now) }
{
    let (word, behind) = split_once(words, b' ')?;
    let name = read_name(word)?;
    let (second, numbers) = split_once(behind, b' ')?;
    let other = read_name(second)?;
    let (m, n) = read_numbers(numbers)?;
    Some((name, other, m, n))
}

/// Two numbers with a space between them.
pub(crate) fn read_numbers(words: &[u8]) -> Option<(u32, u32)>
    ensures numbers { IfSome result (λ numbers. decimal numbers.0 ++ 32 ∷ decimal numbers.1 ≡ words.now) }
    ensures none { IfNone result ((a b : ℕ) → a < 2 ^ 32 → b < 2 ^ 32 → decimal a ++ 32 ∷ decimal b ≢ words.now) }
{
    let (first, second) = split_once(words, b' ')?;
    Some((read_number(first)?, read_number(second)?))
}
