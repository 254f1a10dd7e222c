//! Escapes in texts.

ghost use Rattle.std.specs.Prelude.{◌≡◌, ◌<◌, ◌++◌, ◌∷◌, [], IfNone, IfSome, OnOk, OnSome, string_bytes};
ghost use Rattle.std.specs.List.{flat_map};
ghost use Rattle.metrics.specs.steps.Escapes.{escaped_byte};

use base_types::NoMemory;

/// Where a text stands.
#[derive(Clone, Copy, Debug, PartialEq, Eq)]
pub(crate) enum Place {
    /// In the help of a family.
    Help,
    /// Between the quotes of a label's value.
    LabelValue,
}

/// The escape of a character that has one at this place.
fn escape_at(place: Place, letter: char) -> Option<&'static str>
    ensures escape { IfSome result (λ escape. escape.now ≡ escaped_byte place letter) }
    ensures ascii { OnSome result (letter < 128) }
    ensures none { IfNone result (escaped_byte place letter ≡ letter ∷ []) }
{
    match letter {
        '\\' => Some("\\\\"),
        '\n' => Some("\\n"),
        '"' if place == Place::LabelValue => Some("\\\""),
        _ => None,
    }
}

/// Appends a text with the escapes of this place.
pub(crate) fn push_escaped(output: &mut String, place: Place, text: &str) -> Result<(), NoMemory>
    ensures { OnOk result (string_bytes output.new
        ≡ string_bytes output.old ++ flat_map (escaped_byte place) text.now) }
{
    for letter in text.chars() {
        match escape_at(place, letter) {
            Some(escape) => output.push_str(escape)?,
            None => output.push(letter)?,
        }
    }
    Ok(())
}
