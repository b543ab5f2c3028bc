//! The lengths of messages from a source.
ghost use Rattle.std.specs.Prelude.{◌≤◌, ◌^◌};
ghost use Rattle.dbus_value_model.specs.Specification.{specification};
ghost use Rattle.dbus_stream.specs.CheckReading.{lengths};
ghost use Rattle.dbus_stream.specs.Reading.{IsNewReader};

use crate::buffer::Large;
use crate::lengths::Lengths;
use crate::reader::Reader;
use crate::reads::MOST_READS;
use dbus_device::Source;
use dbus_value_model::Limits;

/// Reads messages from a source, one after another, by a buffer of 262,144 bytes inside it, and
/// returns their lengths.
///
/// It accepts and rejects what a [`crate::MessageReader`] does. A message that lies whole in the
/// buffer is validated there; any other is checked as it comes. It builds no message, keeps no byte
/// of one outside its buffer but what its checker holds, and allocates nothing, so it never returns
/// `Memory`: it has a fixed size, about 303,000 bytes.
///
/// ```rust
/// use dbus_stream::{CheckReader, FromRead};
///
/// let mut reader = CheckReader::new(FromRead::new(rt.stdin()));
/// for _ in 0..u64::MAX {
///     let Some(length) = reader.next()? else {
///         break;
///     };
///     println!(rt; "{length} bytes")?;
/// }
/// ```
pub type CheckReader<R> = Reader<R, Lengths, Large>;

impl<R: Source> Reader<R, Lengths, Large> {
    /// A reader as [`CheckReader::within`] makes it, of at most 2^32 reads and under the limits of
    /// the specification.
    pub fn new(source: R) -> Self
        ensures { IsNewReader lengths source (2 ^ 32) specification result }
    {
        CheckReader::with_reads(source, MOST_READS)
    }

    /// A reader as [`CheckReader::within`] makes it, under the limits of the specification.
    pub fn with_reads(source: R, reads: u64) -> Self
        requires { reads ≤ 2 ^ 32 }
        ensures { IsNewReader lengths source reads specification result }
    {
        CheckReader::within(source, reads, Limits::specification())
    }

    /// A reader of what the source gives, which has read nothing yet. It makes at most `reads`
    /// reads in its life, which are at most 2^32, the one that finds the end of the input among
    /// them, and takes messages that keep these limits.
    pub fn within(source: R, reads: u64, limits: Limits) -> Self
        requires { reads ≤ 2 ^ 32 }
        ensures { IsNewReader lengths source reads limits result }
    {
        Reader::over(
            source,
            Lengths::within(limits),
            Large {
                bytes: [0; 262_144],
            },
            reads,
        )
    }
}
