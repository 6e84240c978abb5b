//! The words that lines of a net script begin with.

ghost use Rattle.std.specs.Prelude.{◌≡◌, ◌≢◌, ℕ, ◌∷◌, ◌++◌, List, IfSome, IfNone};
ghost use Rattle.script_reader.specs.Verbs.{verb_word};
ghost use Rattle.script_reader.specs.declared.net.verb.Verb as declared;

/// The first word of a line that has more words than one.
#[derive(Clone, Copy)]
pub(crate) enum Verb {
    Peer,
    Ins,
    Del,
    Mark,
    Undo,
    Caret,
    Where,
    Push,
    Send,
    Ask,
    Deliver,
    Restart,
    Show,
}

/// The first word of the line, and what stands behind the space.
pub(crate) fn strip_verb(line: &[u8]) -> Option<(Verb, &[u8])>
    ensures verb { IfSome result (λ found. line.now ≡ verb_word found.0 ++ 32 ∷ found.1.now) }
    ensures none { IfNone result ((verb : declared.Verb) (words : List ℕ) → line.now ≢ verb_word verb ++ 32 ∷ words) }
{
    if let Some(words) = line.strip_prefix(b"peer ") {
        Some((Verb::Peer, words))
    } else if let Some(words) = line.strip_prefix(b"ins ") {
        Some((Verb::Ins, words))
    } else if let Some(words) = line.strip_prefix(b"del ") {
        Some((Verb::Del, words))
    } else if let Some(words) = line.strip_prefix(b"mark ") {
        Some((Verb::Mark, words))
    } else if let Some(words) = line.strip_prefix(b"undo ") {
        Some((Verb::Undo, words))
    } else if let Some(words) = line.strip_prefix(b"caret ") {
        Some((Verb::Caret, words))
    } else if let Some(words) = line.strip_prefix(b"where ") {
        Some((Verb::Where, words))
    } else if let Some(words) = line.strip_prefix(b"push ") {
        Some((Verb::Push, words))
    } else if let Some(words) = line.strip_prefix(b"send ") {
        Some((Verb::Send, words))
    } else if let Some(words) = line.strip_prefix(b"ask ") {
        Some((Verb::Ask, words))
    } else if let Some(words) = line.strip_prefix(b"deliver ") {
        Some((Verb::Deliver, words))
    } else if let Some(words) = line.strip_prefix(b"restart ") {
        Some((Verb::Restart, words))
    } else if let Some(words) = line.strip_prefix(b"show ") {
        Some((Verb::Show, words))
    } else {
        None
    }
}
