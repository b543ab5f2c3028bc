//! Values of texts.
#![tactic(auto)]

ghost use Rattle.std.specs.Prelude.{◌≡◌};
ghost use Rattle.dbus_value_model.specs.declared.text_value.StringFault.TheVariants.{Memory};

use crate::value::Value;
use dbus_types::{TextKind, text_break};
use std::alloc::{AllocError, Allocator};
use thiserror::Error;

/// Why a text makes no STRING. D-Bus Specification, "Basic types".
#[derive(Clone, Copy, PartialEq, Eq, Debug, Error)]
pub enum StringFault {
    /// An allocation failed.
    #[error("allocation failed")]
    Memory,
    /// The text has U+0000. It breaks at `at`, which is the length of its longest prefix with which
    /// some STRING begins.
    #[error("no STRING: U+0000 stands at offset {at}")]
    Bad { at: usize },
}

impl From<AllocError> for StringFault {
    ghost from_gives = { λ e f. f ≡ Memory };

    fn from(_error: AllocError) -> StringFault {
        StringFault::Memory
    }
}

impl<A: Allocator> Value<A> {
    ghost use Rattle.std.specs.Prelude.{◌≡◌, IfOk};
    ghost use Rattle.dbus_texts.specs.Types.{STRING};
    ghost use Rattle.dbus_value_model.specs.Values.{TextValue};
    ghost use Rattle.dbus_value_model.specs.ValueViews.{value_tree};
    ghost use Rattle.dbus_value_model.specs.TextValues.{IsString};

    /// A STRING of the text. D-Bus Specification, "Basic types".
    ///
    /// Else `Bad` if the text has U+0000, which no STRING has, or `Memory` if an allocation failed.
    ///
    /// ```rust
    /// use dbus_value::Value;
    ///
    /// for text in ["Hello", "Hel\0lo"] {
    ///     match Value::text(alloc, text) {
    ///         Ok(_) => println!(rt; "a STRING")?,
    ///         Err(fault) => println!(rt; "{fault}")?,
    ///     }
    /// }
    /// ```
    pub fn text(alloc: A, text: &str) -> Result<Value<A>, StringFault>
        ensures { IsString text.now result }
    {
        match text_break(TextKind::Text, text.as_bytes()) {
            None => Ok(Value::text_unchecked(alloc, text)?),
            Some(at) => Err(StringFault::Bad { at }),
        }
    }

    /// A STRING of the text, as [`Value::text`] makes it. Nothing is checked: if the text has
    /// U+0000, the value is not well formed, which [`check_value`](crate::check_value) finds, and
    /// making a message of it.
    ///
    /// The one error is that an allocation failed.
    pub fn text_unchecked(alloc: A, text: &str) -> Result<Value<A>, AllocError>
        ensures { IfOk result (λ v. value_tree v ≡ TextValue STRING text.now) }
    {
        Ok(Value::Str(String::from_str(alloc, text)?))
    }
}
