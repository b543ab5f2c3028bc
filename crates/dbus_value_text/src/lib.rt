//! The parts of a message as text, from its bytes.
//!
//! One walk along the signatures of the values writes them in a form, as lines for a reader or
//! JSON. What a form is to say is its [`ValueForm`], and of header fields its [`FieldForm`]. No
//! value is built: only the text is allocated.
#![tactic(auto)]

mod body;
mod field_form;
mod fields;
mod numbers;
mod texts;
mod value_form;
mod values;
mod visiting;
mod writer;

pub use body::write_body;
pub use field_form::FieldForm;
pub use fields::{FieldRun, FieldsTaken, write_field_run, write_fields};
pub use numbers::write_number_at;
pub use texts::write_types;
pub use value_form::ValueForm;
pub use values::{write_value, write_values};
