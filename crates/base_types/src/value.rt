//! The values of attributes.

ghost use Rattle.std.specs.Prelude.{◌≡◌, List, ℕ, true, false, IfOk, OnOk};
ghost use Rattle.base_types.specs.steps.Faults.{FailsBy, OnFault, value_fault};
ghost use Rattle.base_types.specs.Texts.{is_value_text};

use crate::fault::{NameFault, NoMemory};
use crate::text::Text;
use std::alloc::Global;
use std::marker::Model;

/// The greatest length of a value's text, in bytes.
pub const MAX_VALUE_LEN: usize = 256;

/// A text of 0 to 256 bytes.
#[derive(Debug, Drop, PartialEq, Eq, PartialOrd, Ord)]
pub struct ValueText {
    text: Text,
}

impl Model for ValueText {
    ghost Value = { List ℕ };

    ghost view = { λ value. value.text };

    ghost invariant = { λ value. is_value_text value.text ≡ true };

    ghost inverse = { λ bytes. record { text = bytes } };
}

impl ValueText {
    /// The text itself.
    pub fn text(&self) -> &str
        ensures text { result.now ≡ self.now }
        ensures range { is_value_text self.now ≡ true }
    {
        self.text.as_str()
    }

    /// Returns an equal copy.
    ///
    /// # Errors
    ///
    /// `NoMemory` if an allocation failed.
    pub fn copy(&self, alloc: Global) -> Result<ValueText, NoMemory>
        ensures { IfOk result (λ value. value ≡ self.now) }
    {
        let text = self.text.copy(alloc)?;
        Ok(ValueText { text })
    }
}

/// The value of an attribute: a whole number, in the drawing's unit, or a text.
#[derive(Debug, Drop)]
pub enum Value {
    Number(i64),
    Text(ValueText),
}

impl Value {
    /// Makes a value of a text.
    ///
    /// # Errors
    ///
    /// - `TooLong` if the text has more than 256 bytes.
    /// - `NoMemory` if an allocation failed.
    #[tactic(auto, unfolding(crate::specs::Texts::is_value_text))]
    pub fn text(alloc: Global, text: &str) -> Result<Value, NameFault>
        ensures ok { IfOk result (λ value. value ≡ Value.Text text.now) }
        ensures range { OnOk result (is_value_text text.now ≡ true) }
        ensures fault { FailsBy NameFault.NoMemory (value_fault text.now) result }
        ensures invalid { OnFault NameFault.NoMemory result (is_value_text text.now ≡ false) }
    {
        if text.len() > MAX_VALUE_LEN {
            return Err(NameFault::TooLong);
        }
        let text = Text::from_str(alloc, text)?;
        Ok(Value::Text(ValueText { text }))
    }

    /// Returns an equal copy.
    ///
    /// # Errors
    ///
    /// `NoMemory` if an allocation failed.
    pub fn copy(&self, alloc: Global) -> Result<Value, NoMemory>
        ensures { IfOk result (λ value. value ≡ self.now) }
    {
        match self {
            Value::Number(number) => Ok(Value::Number(*number)),
            Value::Text(text) => Ok(Value::Text(text.copy(alloc)?)),
        }
    }
}

impl PartialEq for Value {
    ghost use Rattle.std.specs.Cmp.{partial_equiv_from_equiv};
    ghost use Rattle.base_types.specs.Values.{same_value};
    ghost use Rattle.base_types.specs.steps.Equality.{same_value-equivalence};

    ghost eq = { same_value };

    ghost laws = { partial_equiv_from_equiv same_value-equivalence };

    fn eq(&self, other: &Value) -> bool {
        match (self, other) {
            (Value::Number(x), Value::Number(y)) => *x == *y,
            (Value::Text(x), Value::Text(y)) => *x == *y,
            _ => false,
        }
    }
}

impl Eq for Value {
    ghost use Rattle.base_types.specs.steps.Equality.{same_value-equivalence};

    ghost laws = { same_value-equivalence };
}
