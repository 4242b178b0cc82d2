//! What a word of a line says.

/// A number, 0 where the word is none.
// Stays: a line that lacks a number is read as 0, which its call then answers for.
pub fn number(text: &str) -> u32 {
    text.parse().unwrap_or(0)
}

/// The part before the first `mark`, and the number behind it.
pub fn parted<'a>(text: &'a str, mark: &str) -> (&'a str, u32) {
    match text.split_once(mark) {
        Some((name, index)) => (name, number(index)),
        None => (text, 0),
    }
}
