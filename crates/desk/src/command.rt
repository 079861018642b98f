ghost use Rattle.std.specs.Prelude.{◌≡◌, [], codes, ◌≢◌};

use crate::amounts::Question;
use crate::shares::Division;
use crate::words::{WordFault, end_of_words, next_word};
use std::str::SplitWhitespace;

/// A day's file as a command names it: the kind letters of its parties, and its path.
#[derive(Clone, Copy)]
pub(crate) struct NamedFile<'a> {
    pub(crate) letters: &'a [u8],
    pub(crate) path: &'a str,
}

/// A command of the script.
#[derive(Drop)]
pub(crate) enum Command<'a> {
    /// the check of a file
    Check(NamedFile<'a>),
    /// the check of a file, and a sheet of what it holds
    Show(NamedFile<'a>),
    /// the amounts of a party's hour
    Amounts(Question),
    /// a fund divided
    Divide(Division),
}

/// The part of a line before a comment, without blanks around it.
pub(crate) fn words_of(line: &str) -> &str {
    match line.split_once('#') {
        Some((before, _)) => before.trim(),
        None => line.trim(),
    }
}

/// The bytes of kind letters; `-` stands for none.
fn letters_of(word: &str) -> &[u8]
    ensures dash { word.now ≡ codes "-" → result.now ≡ [] }
    ensures letters { (word.now ≢ codes "-") → result.now ≡ word.now }
{
    if word == "-" { b"" } else { word.as_bytes() }
}

impl<'a> NamedFile<'a> {
    /// Reads the words `LETTERS PATH`.
    fn parse(mut words: SplitWhitespace<'a>) -> Result<NamedFile<'a>, WordFault<'a>> {
        let letters = letters_of(next_word(&mut words)?);
        let path = next_word(&mut words)?;
        end_of_words(words)?;
        Ok(NamedFile { letters, path })
    }
}

impl<'a> Command<'a> {
    /// What the words of a line ask for.
    pub(crate) fn parse(words: &'a str) -> Result<Command<'a>, WordFault<'a>> {
        let mut words = words.split_whitespace();
        match next_word(&mut words)? {
            "check" => Ok(Command::Check(NamedFile::parse(words)?)),
            "show" => Ok(Command::Show(NamedFile::parse(words)?)),
            "amounts" => Ok(Command::Amounts(Question::parse(words)?)),
            "divide" => Ok(Command::Divide(Division::parse(words)?)),
            _ => Err(WordFault::NoCommand),
        }
    }
}
