//! Words that stand for something.

/// What a table has for a word, if it has the word.
pub fn named<T: Copy>(table: &[(&str, T)], word: &str) -> Option<T> {
    for (name, meant) in table {
        if *name == word {
            return Some(*meant);
        }
    }
    None
}
