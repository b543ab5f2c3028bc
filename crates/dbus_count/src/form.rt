//! The forms of tables.

/// How the lines of tables are written.
#[derive(Clone, Copy, Debug, PartialEq, Eq)]
pub enum Form {
    /// In words: `M messages B bytes`, a space, the word for what is named, a space and the name.
    Text,
    /// As an object of JSON, RFC 8259: the name behind its word, `messages` and `bytes`.
    Json,
}
