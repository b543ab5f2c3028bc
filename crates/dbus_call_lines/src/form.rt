//! The forms of lines.

/// How the line of a call is written.
#[derive(Clone, Copy, Debug, PartialEq, Eq)]
pub enum Form {
    /// In words: `NUMBER SENDER > DESTINATION MEMBER OUTCOME`, with `-` for what is not there, and
    /// in brackets the name by which a connection is known, as in
    /// `7 :1.5(org.a.C) > org.a.B org.a.B.Get reply #9`.
    Text,
    /// As an object of JSON, RFC 8259: `number`, `time`, `serial`, `sender`, `sender_name`,
    /// `destination`, `destination_name`, `path`, `interface`, `member`, `outcome`, `reply`,
    /// `error_name` and `milliseconds`, without what is not there.
    Json,
}
