//! The values that words of a line spell.
ghost use Rattle.std.specs.Prelude.{◌≡◌, ◌≤◌, ◌^◌, length};
ghost use Rattle.step_objects.specs.Shapes.{IsCountable};
ghost use Rattle.trace_io.specs.RowText.{magnitude, number_text, position_of, truth_text, word_value};

use hept_ast::Name;
use step_objects::Values;

/// The value that digits spell, where it is at most the greatest one.
fn magnitude(digits: &[u8], greatest: u32) -> Option<u32>
    ensures { result ≡ magnitude greatest digits.now }
{
    if digits.is_empty() {
        return None;
    }
    let mut number: u64 = 0;
    for digit in digits {
        if !digit.is_ascii_digit() {
            return None;
        }
        number = number * 10 + u64::from(*digit - b'0');
        if number > u64::from(greatest) {
            return None;
        }
    }
    Some(number as u32)
}

/// The bits of the number that a word spells.
fn number_text(word: &[u8]) -> Option<u32>
    ensures { result ≡ number_text word.now }
{
    match word {
        [b'-', digits @ ..] => magnitude(digits, 2_147_483_648).map(u32::wrapping_neg),
        _ => magnitude(word, 2_147_483_647),
    }
}

fn truth_text(word: &[u8]) -> Option<u32>
    ensures { result ≡ truth_text word.now }
{
    if word == b"false".as_slice() {
        Some(0)
    } else if word == b"true".as_slice() {
        Some(1)
    } else {
        None
    }
}

/// The position of the first name that is this word.
fn position_of(word: &[u8], names: &[Name]) -> Option<u32>
    requires { length names.now ≤ 2 ^ 32 }
    ensures { result ≡ position_of word.now names.now }
{
    for (position, name) in names.iter().enumerate() {
        if word == name.bytes() {
            return Some(position as u32);
        }
    }
    None
}

/// The value that a word spells.
pub(crate) fn word_value(values: &Values, word: &[u8]) -> Option<u32>
    requires { IsCountable values.now }
    ensures { result ≡ word_value values.now word.now }
{
    match values {
        Values::Numbers => number_text(word),
        Values::Truths => truth_text(word),
        Values::Constructors(names) => position_of(word, names.as_slice()),
    }
}
