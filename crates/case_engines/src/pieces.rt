//! Bytes that are handed over in pieces.

use case_questions::{Question, split};

/// What takes pieces.
pub(crate) trait Pieces {
    /// Takes a piece, as it comes.
    fn take_all(&mut self, piece: &[u8]);
}

/// Hands over the bytes up to a place, and then the others; these in pieces of `size=` bytes, if
/// the question says so, and with `empty=yes` so that an empty piece comes after each.
pub(crate) fn hand_over<T: Pieces>(
    taker: &mut T,
    question: Question<'_>,
    bytes: &[u8],
    place: usize,
) {
    let (front, rest) = split(bytes, place);
    taker.take_all(front);
    for piece in rest.chunks(question.count("size", usize::MAX).max(1)) {
        taker.take_all(piece);
        if question.setting("empty").is_some() {
            taker.take_all(b"");
        }
    }
}
