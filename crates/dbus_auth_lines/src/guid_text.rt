//! A GUID as text.
#![tactic(auto)]

use crate::lines::Guid;
use std::fmt;

/// The 32 hexadecimal digits, in lower case, as a server's `OK` line has them. D-Bus Specification,
/// "OK Command".
impl fmt::Display for Guid {
    fn fmt<W: fmt::Write>(&self, f: &mut fmt::Formatter<W>) -> fmt::Result {
        for byte in &self.0 {
            write!(f, "{byte:02x}")?;
        }
        Ok(())
    }
}
