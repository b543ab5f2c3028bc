//! The end of the first line of some bytes: for an end of a connection that keeps the bytes of an
//! unfinished line, and for a caller that has all bytes.

ghost use Rattle.std.specs.Prelude.{◌≡◌, ◌++◌, ◌-◌, ◌≤◌, ℕ, length, take, false, IfOk, MatchOption, MatchResult};
ghost use Rattle.dbus_auth_lines.specs.Cut.{passes_limit, is_bad, scan_from, cut, Ends, More, Beginning, BeginsAs, Faulty, Unfinished, WholeLine};
ghost use Rattle.dbus_auth_lines.specs.CutterViews.{fault_of, found, cr_after, IsWithin};

use std::alloc::{AllocError, Allocator};

/// A fault of a line's bytes.
#[derive(Clone, Copy, PartialEq, Eq, Debug, Drop)]
pub enum BadLine {
    /// The line has more than 16,384 bytes with its CR LF.
    TooLong,
    /// A byte that a line may not have.
    BadByte {
        /// Its place in the line, from 0.
        at: usize,
    },
}

/// What a scan finds.
#[derive(Clone, Copy, Debug, Drop)]
pub enum Found {
    /// A line ends: the number of its bytes, its CR LF included.
    Ends(usize),
    /// The first fault, which comes before any line ends.
    Bad(BadLine),
    /// Neither: the bytes are a prefix of a line.
    More,
}

/// The end of the line that the bytes kept and the piece begin with, or the first fault. In the
/// bytes kept no line ends, and none has a fault.
#[tactic(auto, using(crate::proofs::Cuts::kept_within, crate::proofs::Cuts::resumes, crate::proofs::Cuts::is_within))]
pub fn find(kept: &[u8], piece: &[u8]) -> Found
    requires { cut kept.now ≡ More }
    ensures is { found result ≡ cut (kept.now ++ piece.now) }
    ensures size { IsWithin (length kept.now) (length piece.now) (found result) }
{
    scan_piece(kept.len(), ends_in_cr(kept), piece)
}

/// The line that the bytes begin with, without its CR LF; `None` if more bytes are wanted, since
/// they are a prefix of a line and not all of it. Returns the first fault if one comes before any
/// line ends. It allocates nothing.
#[tactic(auto, using(crate::proofs::Scans::cut_empty, crate::proofs::Cuts::whole_line, crate::proofs::Cuts::faulty_line, crate::proofs::Cuts::no_line))]
pub fn first_line(bytes: &[u8]) -> Result<Option<&[u8]>, BadLine>
    ensures { (b : Beginning) → BeginsAs bytes.now b →
        MatchResult result (λ r. MatchOption r (b ≡ Unfinished) (λ line. b ≡ WholeLine line.now))
        (λ f. b ≡ Faulty (fault_of f)) }
{
    match find(&[], bytes) {
        Found::Ends(size) => Ok(Some(&bytes[..size - 2])),
        Found::Bad(fault) => Err(fault),
        Found::More => Ok(None),
    }
}

/// The line of this size, which `find` found, without its CR LF.
///
/// Returns `AllocError` if an allocation failed.
pub fn line_of<A: Allocator + Copy>(
    alloc: A,
    kept: &[u8],
    piece: &[u8],
    size: usize,
) -> Result<Vec<u8, A>, AllocError>
    requires { IsWithin (length kept.now) (length piece.now) (Ends size) }
    ensures { IfOk result (λ v. v.items ≡ take (size - 2) (kept.now ++ piece.now)) }
{
    let mut line = Vec::new(alloc);
    line.extend_from_slice(kept)?;
    line.extend_from_slice(&piece[..size - kept.len()])?;
    line.truncate(size - 2);
    Ok(line)
}

/// The first end of a line or the first fault, from the place `at` of a line on.
#[tactic(auto, using(crate::proofs::Scans::scan_at, crate::proofs::Scans::scan_end))]
fn scan_piece(at: usize, mut after_cr: bool, piece: &[u8]) -> Found
    requires { at ≤ 16383 }
    ensures { found result ≡ scan_from at after_cr piece.now }
{
    for (i, b) in piece.iter().enumerate() {
        let place = at + i;
        if is_past_limit(place, after_cr, *b) {
            return Found::Bad(BadLine::TooLong);
        }
        if is_bad_byte(after_cr, *b) {
            return Found::Bad(BadLine::BadByte { at: place });
        }
        if after_cr {
            return Found::Ends(place + 1);
        }
        after_cr = *b == b'\r';
    }
    Found::More
}

/// Whether a line with this byte would be too long.
fn is_past_limit(at: usize, after_cr: bool, b: u8) -> bool
    ensures { result ≡ passes_limit at after_cr b }
{
    at == 16382 && !(b == b'\r' || (b == b'\n' && after_cr))
}

/// Whether the byte is not allowed here.
fn is_bad_byte(after_cr: bool, b: u8) -> bool
    ensures { result ≡ is_bad after_cr b }
{
    b == 0 || 127 < b || (if after_cr { b != b'\n' } else { b == b'\n' })
}

/// Whether the last byte is CR.
#[tactic(auto, using(crate::proofs::Cuts::last_is_cr))]
fn ends_in_cr(bytes: &[u8]) -> bool
    ensures { result ≡ cr_after false bytes.now }
{
    match bytes {
        [] => false,
        [.., last] => *last == b'\r',
    }
}
