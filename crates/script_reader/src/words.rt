//! The parts of a line: words, numbers and escaped text.

ghost use Rattle.std.specs.Prelude.{◌≡◌, ◌≢◌, ◌⊎◌, ◌↔◌, ℕ, ◌<◌, ◌≤◌, ◌^◌, ◌∷◌, ◌++◌, List, length, slice_index, true, All, IfSome, IfNone, IfOk, IsTrue, decimal};
ghost use Rattle.std.specs.Char.{encode_utf8};
ghost use Rattle.std.specs.Str.{all_scalars};
ghost use Rattle.std.specs.Str.Iter.{chars_rest};
ghost use Rattle.ew_model.specs.Scripts.{escaped_char, escaped_text};

use ew_model::NoMem;
use peer_definitions::text::Text;
use std::alloc::Global;
use std::str;
use std::str::Chars;

/// What stands before the first byte of this value, and what stands behind it.
pub fn split_once(bytes: &[u8], at: u8) -> Option<(&[u8], &[u8])>
    ensures found { IfSome result (λ parts. All (λ x. x ≢ at) parts.0.now × (bytes.now ≡ parts.0.now ++ at ∷ parts.1.now)) }
    ensures none { IfNone result (All (λ x. x ≢ at) bytes.now) }
{
    let place = bytes.iter().position(|x| *x == at)?;
    Some((&bytes[..place], &bytes[place + 1..]))
}

/// The number of 32 bits that the word spells: decimal digits, with no sign, and no zero in front of others.
pub fn read_number(word: &[u8]) -> Option<u32>
    ensures number { IfSome result (λ n. decimal n ≡ word.now) }
    ensures none { IfNone result ((n : ℕ) → n < 2 ^ 32 → decimal n ≢ word.now) }
{
    if begins_with_extra(word) {
        return None;
    }
    str::from_utf8(word).ok()?.parse().ok()
}

/// Whether the word begins with a sign, or with a zero in front of other bytes.
fn begins_with_extra(word: &[u8]) -> bool
    ensures { IsTrue result ↔ ((slice_index word.now 0 ≡ 43) ⊎ ((slice_index word.now 0 ≡ 48) × (1 < length word.now))) }
{
    matches!(word, [b'+', ..] | [b'0', _, ..])
}

/// The text that the bytes spell, in which a newline and a backslash are escaped.
pub fn read_text(alloc: Global, bytes: &[u8]) -> Result<Option<Text>, NoMem>
    ensures text { IfOk result (λ found. IfSome found (λ text. (all_scalars text ≡ true) × (escaped_text text ≡ bytes.now))) }
    ensures none { IfOk result (λ found. IfNone found ((text : List ℕ) → all_scalars text ≡ true → escaped_text text ≢ bytes.now)) }
{
    match str::from_utf8(bytes) {
        Ok(escaped) => unescape(alloc, escaped),
        Err(_) => Ok(None),
    }
}

fn unescape(alloc: Global, escaped: &str) -> Result<Option<Text>, NoMem>
    ensures text { IfOk result (λ found. IfSome found (λ text. (all_scalars text ≡ true) × (escaped_text text ≡ escaped.now))) }
    ensures none { IfOk result (λ found. IfNone found ((text : List ℕ) → escaped_text text ≢ escaped.now)) }
{
    let mut text = Text::new(alloc);
    let mut rest = escaped.chars();
    while let Some(first) = rest.next() {
        let Some(ch) = unescaped(first, &mut rest) else {
            return Ok(None);
        };
        text.push(ch)?;
    }
    Ok(Some(text))
}

/// The character whose writing begins with this one, and goes on in what follows.
fn unescaped(first: char, rest: &mut Chars) -> Option<char>
    ensures some { IfSome result (λ ch. escaped_char ch ++ chars_rest rest.new ≡ encode_utf8 first ++ chars_rest rest.old) }
    ensures none { IfNone result ((text : List ℕ) → escaped_text text ≢ encode_utf8 first ++ chars_rest rest.old) }
    ensures shorter { length (chars_rest rest.new) ≤ length (chars_rest rest.old) }
{
    match first {
        '\\' => match rest.next()? {
            'n' => Some('\n'),
            '\\' => Some('\\'),
            _ => None,
        },
        '\n' => None,
        _ => Some(first),
    }
}
