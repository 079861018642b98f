use std::error::Error;
use std::fmt;
use std::str::SplitWhitespace;

/// What is wrong with the words of a command.
#[derive(Clone, Copy, Debug, PartialEq, Eq)]
pub(crate) enum WordFault<'a> {
    /// no command has this name, or takes so many words
    NoCommand,
    NoBook(&'a str),
    NoRule(&'a str),
    NoSide(&'a str),
    NoNumber(&'a str),
    NoWeight(&'a str),
}

impl fmt::Display for WordFault<'_> {
    fn fmt<W: fmt::Write>(&self, f: &mut fmt::Formatter<W>) -> fmt::Result {
        match self {
            WordFault::NoCommand => f.write_str("no such command"),
            WordFault::NoBook(word) => {
                write!(f, "{word} is no rule book: three-part or two-part")
            }
            WordFault::NoRule(word) => {
                write!(f, "{word} is no sharing rule: largest-remainder or running")
            }
            WordFault::NoSide(word) => write!(f, "{word} is neither S nor B"),
            WordFault::NoNumber(word) => write!(f, "{word} is no whole number of 64 bits"),
            WordFault::NoWeight(word) => write!(f, "{word} is no weight: a whole number from 0"),
        }
    }
}

impl Error for WordFault<'_> {}

/// The next word.
pub(crate) fn next_word<'a>(words: &mut SplitWhitespace<'a>) -> Result<&'a str, WordFault<'a>> {
    words.next().ok_or(WordFault::NoCommand)
}

/// The next word as a whole number of 64 bits.
pub(crate) fn next_number<'a>(words: &mut SplitWhitespace<'a>) -> Result<i64, WordFault<'a>> {
    let word = next_word(words)?;
    word.parse().map_err(|_| WordFault::NoNumber(word))
}

/// Refuses a word that is left.
pub(crate) fn end_of_words(mut words: SplitWhitespace<'_>) -> Result<(), WordFault<'_>> {
    match words.next() {
        Some(_) => Err(WordFault::NoCommand),
        None => Ok(()),
    }
}
