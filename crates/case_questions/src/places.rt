//! What an engine replies at each of several places.

use crate::question::Question;
use crate::reply::Reply;

/// What replies at a place of some bytes.
pub trait Engine {
    /// Adds what it replies. It is asked of each place in turn.
    fn say(&mut self, reply: &mut Reply, place: usize);
}

/// Adds the replies at the places `from=` up to `to=`, `step=` apart, or from `first` up to `last`
/// if the question says none: each with the place from which on it is the reply.
pub fn say_places<E: Engine>(
    reply: &mut Reply,
    question: Question<'_>,
    engine: &mut E,
    first: usize,
    last: usize,
) {
    let first = question.count("from", first);
    let last = question.count("to", last);
    let step = question.count("step", 1).max(1);
    let mut before = Reply::new(reply.alloc());
    for place in (first..last.saturating_add(1)).step_by(step) {
        let mut now = Reply::new(reply.alloc());
        engine.say(&mut now, place);
        if now.line() != before.line() {
            if place != first {
                reply.comma();
            }
            reply.number(place as u64);
            reply.word(now.line());
        }
        before = now;
    }
}

/// The bytes up to a place, and those after it.
pub fn split(bytes: &[u8], place: usize) -> (&[u8], &[u8]) {
    bytes.split_at(place.min(bytes.len()))
}

/// The bytes from one place up to another, none if there are no such bytes.
pub fn piece(bytes: &[u8], from: usize, to: usize) -> &[u8] {
    bytes.get(from..to).unwrap_or(&[])
}
