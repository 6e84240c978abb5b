//! Text in its escaped form.

ghost use Rattle.std.specs.Prelude.{◌≡◌, ◌++◌, IfOk, OnOk};
ghost use Rattle.std.specs.String.{string_bytes};
ghost use Rattle.blame_definitions.specs.Widths.{columns_of};
ghost use Rattle.ew_model.specs.Scripts.{escaped_char, escaped_text};

use ew_model::NoMem;
use std::alloc::Global;
use unicode_width::UnicodeWidthStr;

/// A text as it is printed: a newline as `\n`, a backslash as `\\`, any other character as its UTF-8.
pub fn escaped(alloc: Global, text: &[char]) -> Result<String, NoMem>
    ensures { IfOk result (λ s. string_bytes s ≡ escaped_text text.now) }
{
    let mut out = String::new(alloc);
    for ch in text {
        push_escaped(&mut out, *ch)?;
    }
    Ok(out)
}

fn push_escaped(out: &mut String, ch: char) -> Result<(), NoMem>
    ensures { OnOk result (string_bytes out.new ≡ string_bytes out.old ++ escaped_char ch) }
{
    match ch {
        '\n' => out.push_str("\\n"),
        '\\' => out.push_str("\\\\"),
        _ => out.push(ch),
    }
}

/// The columns that the escaped form of a text takes in a terminal.
pub fn columns_of(alloc: Global, text: &[char]) -> Result<usize, NoMem>
    ensures { IfOk result (λ n. n ≡ columns_of text.now) }
{
    let form = escaped(alloc, text)?;
    Ok(form.as_str().width())
}
