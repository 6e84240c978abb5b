//! How much of a text fits into so many columns.

ghost use Rattle.std.specs.Prelude.{◌≡◌, ◌+◌, ◌-◌, ◌≤◌, length, nat_le, IfOk, IsTrue};
ghost use Rattle.blame_definitions.specs.Widths as model;
ghost use Rattle.std.specs.Int.{is_in_range};
ghost use Rattle.std.specs.String.{string_bytes};
ghost use Rattle.blame.specs.Fitting.{EndsPrintable};
ghost use Rattle.ew_model.specs.Scripts.{escaped_text};

use crate::escaped::{columns_of, escaped};
use ew_model::NoMem;
use std::alloc::Global;

/// What is shown of a text in so many columns, in its escaped form.
pub fn shown(alloc: Global, text: &[char], columns: u32) -> Result<String, NoMem>
    ensures { IfOk result (λ s. string_bytes s ≡ escaped_text (model.shown columns text.now)) }
{
    let count = shown_len(alloc, text, columns)?;
    let form = escaped(alloc, &text[..count])?;
    Ok(form)
}

/// How many of a text's first characters are shown in so many columns: the most that fit.
///
/// A longer front may fit where a shorter one doesn't. So it is sought from the longest one on that may fit.
fn shown_len(alloc: Global, text: &[char], columns: u32) -> Result<usize, NoMem>
    ensures within { IfOk result (λ k. k ≤ length text.now) }
    ensures most { IfOk result (λ k. k ≡ model.greatest (model.fits columns text.now) (length text.now)) }
{
    let mut k = may_fit(alloc, text, columns)?;
    while k > 0 {
        if fits(alloc, &text[..k], columns)? {
            return Ok(k);
        }
        k -= 1;
    }
    Ok(0)
}

/// So many of a text's first characters that no longer front fits.
///
/// Two printable ASCII characters after one another join nothing that follows. Where the front that ends with the first of them is too
/// wide, all longer ones are.
fn may_fit(alloc: Global, text: &[char], columns: u32) -> Result<usize, NoMem>
    ensures within { IfOk result (λ n. n ≤ length text.now) }
    ensures same { IfOk result (λ n. model.greatest (model.fits columns text.now) n ≡ model.greatest (model.fits columns text.now) (length text.now)) }
{
    let mut seen = columns as usize + 2;
    while seen < text.len() {
        if !ends_printable(&text[..seen]) {
            seen += 1;
        } else if fits(alloc, &text[..seen - 1], columns)? {
            seen = seen.saturating_mul(2);
        } else {
            return Ok(seen - 2);
        }
    }
    Ok(text.len())
}

/// Whether the last two characters are printable ASCII.
fn ends_printable(text: &[char]) -> bool
    requires { 2 ≤ length text.now }
    ensures { IsTrue result → EndsPrintable text.now }
{
    is_printable(text[text.len() - 2]) && is_printable(text[text.len() - 1])
}

fn is_printable(ch: char) -> bool
    ensures { result ≡ is_in_range 0x20 0x7E ch }
{
    ' ' <= ch && ch <= '~'
}

/// Whether a text fits into so many columns.
///
/// The end of a text takes as many columns as by itself, less at most one. So of a long text only the end is looked at, if that is
/// too wide already.
fn fits(alloc: Global, text: &[char], columns: u32) -> Result<bool, NoMem>
    ensures { IfOk result (λ b. b ≡ nat_le (model.columns_of text.now) columns) }
{
    let most = columns as usize;
    let mut size = most / 2 + 2;
    while size < text.len() {
        if columns_of(alloc, &text[text.len() - size..])? > most + 1 {
            return Ok(false);
        }
        size = size.saturating_mul(2);
    }
    Ok(columns_of(alloc, text)? <= most)
}
