//! The piece length that an argument names.
ghost use Rattle.std.specs.Prelude.{◌<◌};
ghost use Rattle.command_line.specs.Lengths.{IsPieceLengthIfThere, IsSizeIfThere, IsUnitsIfThere};
ghost use Rattle.command_line.specs.Texts.{IsNumberTextIfThere};

use actions::PieceLengthChoice;

/// The piece length that a text names.
pub(crate) fn piece_length_in(text: &str) -> Option<PieceLengthChoice>
    ensures { IsPieceLengthIfThere text.now result }
{
    if text == "auto" {
        return Some(PieceLengthChoice::Auto);
    }
    Some(PieceLengthChoice::Bytes(size_in(text)?))
}

// The number of bytes that a text names.
fn size_in(text: &str) -> Option<u64>
    ensures { IsSizeIfThere text.now result }
{
    if let Some(bytes) = units_in(text, 'K', 1024) {
        return Some(bytes);
    }
    if let Some(bytes) = units_in(text, 'M', 1_048_576) {
        return Some(bytes);
    }
    if let Some(bytes) = units_in(text, 'G', 1_073_741_824) {
        return Some(bytes);
    }
    number_in(text)
}

// The number of bytes that a text names in units with this letter, of this many bytes each.
fn units_in(text: &str, letter: char, factor: u64) -> Option<u64>
    requires { letter < 128 }
    ensures { IsUnitsIfThere letter factor text.now result }
{
    let (digits, rest) = text.split_once(letter)?;
    if !rest.is_empty() {
        return None;
    }
    digits.parse::<u64>().ok()?.checked_mul(factor)
}

// The number that a text is.
fn number_in(text: &str) -> Option<u64>
    ensures { IsNumberTextIfThere text.now result }
{
    text.parse::<u64>().ok()
}
