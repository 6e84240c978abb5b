//! The words of a row.

use ew_model::NoMem;
use std::alloc::Global;
use std::fmt::Write;
use trial_rows::fault::Fault;
use trial_rows::words::unescaped;

pub fn number(text: &str) -> Result<u64, Fault> {
    Ok(text.parse::<u64>()?)
}

/// Numbers, with spaces between them.
pub fn numbers(alloc: Global, text: &str) -> Result<Vec<u64>, Fault> {
    let mut numbers = Vec::new(alloc);
    for word in text.split_whitespace() {
        numbers.push(number(word)?)?;
    }
    Ok(numbers)
}

/// Appends bytes to a text; all but the printed characters of ASCII, and `%` itself, as `%` and two digits.
pub fn push_escaped(told: &mut String, bytes: &[u8]) -> Result<(), NoMem> {
    for byte in bytes {
        if (0x20..0x7f).contains(byte) && *byte != b'%' {
            told.push(char::from(*byte))?;
        } else {
            write!(told, "%{byte:02x}")?;
        }
    }
    Ok(())
}

/// A word of a command line.
fn word(alloc: Global, text: &str) -> Result<String, Fault> {
    let bytes = unescaped(alloc, text)?;
    let text = str::from_utf8(bytes.as_slice())
        .ok()
        .ok_or(Fault::Unreadable)?;
    Ok(String::from_str(alloc, text)?)
}

/// The words of a command line, none where the text is empty, parted by `|` if there is one, else by spaces.
pub fn line_words(alloc: Global, text: &str) -> Result<Vec<String>, Fault> {
    let mut words = Vec::new(alloc);
    if text.is_empty() {
        return Ok(words);
    }
    let bar = if text.contains('|') { '|' } else { ' ' };
    for part in text.split(bar) {
        words.push(word(alloc, part)?)?;
    }
    Ok(words)
}
