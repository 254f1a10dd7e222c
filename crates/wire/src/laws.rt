//! The law of the JSON forms. The function returns nothing: its contract is the law.

ghost use Rattle.std.specs.Prelude.{◌≡◌, ◌↔◌, ℤ, FitsSigned, Some};
ghost use Rattle.std.specs.Int.{w64};
ghost use Rattle.serde_json.specs.Find.{as_i64, of_integer};
ghost use Rattle.serde_json.specs.View.{number_view};

use serde_json::Number;

/// A JSON number has the form of a whole number in the range of i64 exactly where `as_i64` gives
/// that number.
pub fn whole_number(number: &Number)
    ensures { (z : ℤ) → (as_i64 (number_view number.now) ≡ Some z)
        ↔ ((number_view number.now ≡ of_integer z) × FitsSigned w64 z) }
{
    // This reads the range of the number into the proof.
    let _whole = number.as_i64();
}
