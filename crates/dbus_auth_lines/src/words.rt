//! A line as a command and words.
//! D-Bus Specification, "Authentication Protocol", "Protocol Overview".

ghost use Rattle.std.specs.Prelude.{◌≡◌, ◌≢◌, ℕ, ◌+◌, ◌<◌, ◌≤◌, true, false, List, [], ◌∷◌, length, drop, slice_index, MatchOption, IfSome, option_map};
ghost use Rattle.dbus_auth_lines.specs.Lines.{alone, command_name, words, at_word_end};
ghost use Rattle.dbus_auth_lines.specs.WordPlaces.{AreNextWords, AreSpaces, IsNextWord, IsWithin, IsWordOrNone, one_word, text_at};

/// The place of a text in a line. If there is no such text, it has no bytes.
#[derive(Clone, Copy, PartialEq, Eq, Debug, Drop)]
pub struct WordPlace {
    /// Its offset, in bytes from the line's first.
    pub at: usize,
    /// The number of bytes that it has.
    pub length: usize,
}

/// The text there.
pub(crate) fn text_at(line: &[u8], place: WordPlace) -> &[u8]
    requires { IsWithin line.now place }
    ensures { result.now ≡ text_at line.now place }
{
    &line[place.at..place.at + place.length]
}

/// The bytes from there on.
#[tactic(auto, using(crate::proofs::Spaces::rest_is))]
pub(crate) fn rest_of(line: &[u8], from: usize) -> &[u8]
    requires { from ≤ length line.now }
    ensures { result.now ≡ drop from line.now }
{
    &line[from..]
}

/// The number of bytes before the first space.
#[tactic(auto, using(crate::proofs::Spaces::command_on, crate::proofs::Spaces::command_stops, crate::proofs::Spaces::command_all))]
pub(crate) fn word_len(bytes: &[u8]) -> usize
    ensures is { result ≡ length (command_name bytes.now) }
    ensures within { result ≤ length bytes.now }
    ensures no_space { (k : ℕ) → k < result → slice_index bytes.now k ≢ 32 }
    ensures ends { result < length bytes.now → slice_index bytes.now result ≡ 32 }
{
    for (i, b) in bytes.iter().enumerate() {
        if *b == b' ' {
            return i;
        }
    }
    bytes.len()
}

/// The number of spaces before the first other byte.
#[tactic(auto, using(crate::proofs::Spaces::words_more))]
fn space_count(bytes: &[u8]) -> usize
    ensures within { result ≤ length bytes.now }
    ensures same_words { words (drop result bytes.now) ≡ words bytes.now }
    ensures starts { at_word_end (drop result bytes.now) ≡ true → result ≡ length bytes.now }
    ensures spaces { (k : ℕ) → k < result → slice_index bytes.now k ≡ 32 }
    ensures begins { result < length bytes.now → slice_index bytes.now result ≢ 32 }
{
    for (i, b) in bytes.iter().enumerate() {
        if *b != b' ' {
            return i;
        }
    }
    bytes.len()
}

/// From the first word on, up to the line's end.
#[tactic(auto, using(crate::proofs::Spaces::words_at, crate::proofs::Spaces::starts_at))]
pub(crate) fn words_from(line: &[u8], from: usize) -> WordPlace
    requires { from ≤ length line.now }
    ensures place { AreNextWords line.now from result }
    ensures is { words (text_at line.now result) ≡ words (drop from line.now) }
    ensures starts { at_word_end (text_at line.now result) ≡ true → result.length ≡ 0 }
{
    let at = from + space_count(rest_of(line, from));
    WordPlace {
        at,
        length: line.len() - at,
    }
}

/// The first word from there on.
#[tactic(auto, using(crate::proofs::Spaces::word_cut, crate::proofs::Spaces::no_words))]
pub(crate) fn next_word(line: &[u8], from: usize) -> Option<WordPlace>
    requires { from ≤ length line.now }
    ensures is { MatchOption result (words (drop from line.now) ≡ [])
        (λ p. words (drop from line.now) ≡ text_at line.now p ∷ words (drop (p.at + p.length) line.now)) }
    ensures place { MatchOption result (AreSpaces line.now from (length line.now)) (λ p. IsNextWord line.now from p) }
{
    let left = words_from(line, from);
    if left.length == 0 {
        return None;
    }
    Some(WordPlace {
        at: left.at,
        length: word_len(rest_of(line, left.at)),
    })
}

/// Whether no word comes from there on.
pub(crate) fn is_alone(line: &[u8], from: usize) -> bool
    requires { from ≤ length line.now }
    ensures { result ≡ alone true false (words (drop from line.now)) }
{
    next_word(line, from).is_none()
}

/// The only word from there on; no bytes if there is none, and `None` if there are more.
pub(crate) fn only_word(line: &[u8], from: usize) -> Option<WordPlace>
    requires { from ≤ length line.now }
    ensures is { option_map (text_at line.now) result ≡ one_word (words (drop from line.now)) }
    ensures place { IfSome result (λ p. IsWordOrNone line.now from p) }
{
    let Some(word) = next_word(line, from) else {
        return Some(WordPlace {
            at: from,
            length: 0,
        });
    };
    if is_alone(line, word.at + word.length) {
        Some(word)
    } else {
        None
    }
}
