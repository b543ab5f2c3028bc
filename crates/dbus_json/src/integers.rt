//! How integers of 64 bits stand in JSON. RFC 8259, section 6; RFC 7493, section 2.2.
#![tactic(auto)]

ghost use Rattle.std.specs.Prelude.{◌≡◌};
ghost use Rattle.dbus_json.specs.JsonIntegers.{integers_of, may_be_number};

/// The greatest integer n of which n and n + 1 both are floats of 64 bits exactly: 2^53 - 1.
const GREATEST_SAFE: u64 = 9_007_199_254_740_991;

/// How an INT64 or a UINT64 stands in JSON.
///
/// Some readers take each number of JSON for a float of 64 bits, and round an integer that is none.
/// RFC 8259, section 6; RFC 7493, section 2.2.
#[derive(Clone, Copy, Debug, PartialEq, Eq)]
pub enum Integers {
    /// Each as a number.
    Exact,
    /// As a number if its absolute value is at most 2^53 - 1, the greatest that no reader rounds or
    /// has rounded to; else as a string of that number.
    Safe,
}

impl Integers {
    /// `Safe` if they are to be safe, else `Exact`.
    pub fn of(safe: bool) -> Self
        ensures { result ≡ integers_of safe }
    {
        if safe {
            Integers::Safe
        } else {
            Integers::Exact
        }
    }

    /// Whether an integer of this absolute value may be a number.
    #[inline]
    pub fn may_be_number(self, size: u64) -> bool
        ensures { result ≡ may_be_number self size }
    {
        match self {
            Integers::Exact => true,
            Integers::Safe => size <= GREATEST_SAFE,
        }
    }
}
