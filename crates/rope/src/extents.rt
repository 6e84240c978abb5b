//! How much room characters take in other counts than that of characters.

ghost use Rattle.std.specs.Prelude.{◌≡◌, ◌≤◌, length};
ghost use Rattle.std.specs.Char.{len_utf8};
ghost use Rattle.rope.specs.Counts.{second_unit, wide_chars, utf8_bytes, Reaches};
ghost use Rattle.rope.specs.Extents.{extent, width};

/// What is counted of a text.
#[derive(Clone, Copy, Debug, PartialEq, Eq)]
pub enum Measure {
    /// The code units of UTF-16.
    Utf16,
    /// The bytes of UTF-8.
    Utf8,
}

/// How many of some characters take two code units of UTF-16, and how many bytes of UTF-8 all of them take.
#[derive(Clone, Copy, Debug, PartialEq, Eq)]
pub struct Extents {
    pub wide: u32,
    pub bytes: u64,
}

/// Those of some characters.
pub fn extents_in(chars: &[char]) -> Extents
    requires few { length chars.now ≤ 64 }
    ensures wide { result.wide ≡ wide_chars chars.now }
    ensures bytes { result.bytes ≡ utf8_bytes chars.now }
{
    let mut wide = 0;
    let mut bytes = 0;
    for ch in chars {
        wide += second_unit(*ch);
        bytes += byte_count(*ch);
    }
    Extents {
        wide,
        bytes: u64::from(bytes),
    }
}

/// Whether a character takes a second code unit of UTF-16, as a number.
fn second_unit(ch: char) -> u32
    ensures value { result ≡ second_unit ch }
    ensures few { result ≤ 1 }
{
    u32::from(ch >= '\u{10000}')
}

/// How many bytes of UTF-8 a character takes.
// By comparisons that are added up: the loop over a leaf's characters has no branches then.
fn byte_count(ch: char) -> u32
    ensures value { result ≡ len_utf8 ch }
    ensures few { result ≤ 4 }
{
    1 + u32::from(ch >= '\u{80}') + u32::from(ch >= '\u{800}') + u32::from(ch >= '\u{10000}')
}

/// How much of a measure a character takes.
fn width(measure: Measure, ch: char) -> u64
    ensures value { result ≡ width measure ch }
    ensures few { result ≤ 4 }
{
    match measure {
        Measure::Utf16 => ch.len_utf16() as u64,
        Measure::Utf8 => ch.len_utf8() as u64,
    }
}

/// How much of a measure some characters take.
pub fn extent_in(measure: Measure, chars: &[char]) -> u64
    requires few { length chars.now ≤ 64 }
    ensures { result ≡ extent measure chars.now }
{
    let mut extent = 0;
    for ch in chars {
        extent += width(measure, *ch);
    }
    extent
}

/// The index at which so much of a measure ends, or of the character in which it does, and how much of it is left there.
pub fn reach_in(measure: Measure, much: u64, chars: &[char]) -> (u32, u64)
    requires few { length chars.now ≤ 64 }
    ensures { Reaches measure chars.now much result.0 result.1 }
{
    let mut rest = much;
    for (i, ch) in chars.iter().enumerate() {
        let here = width(measure, *ch);
        if rest < here {
            return (i as u32, rest);
        }
        rest -= here;
    }
    (chars.len() as u32, rest)
}
