use crate::command::{Command, words_of};
use crate::failure::Failure;
use crate::sheet::Sheet;
use scheduler::check_day;
use std::rt::Files;
use std::{fs, io};

/// Runs one line of the script and prints its answer; an empty line has none.
pub(crate) fn run_line(rt: &(impl Files + Print + AllocGlobal), line: &str) -> io::Result<()> {
    let words = words_of(line);
    if words.is_empty() {
        return Ok(());
    }
    match answer(rt, words) {
        Ok(()) => Ok(()),
        Err(Failure::Ends(error)) => Err(error),
        Err(failure) => println!(rt; "{words} -> {failure}"),
    }
}

/// Runs the command that the words are, and prints its answer if that is ok.
fn answer<'a>(rt: &(impl Files + Print + AllocGlobal), words: &'a str) -> Result<(), Failure<'a>> {
    match Command::parse(words)? {
        Command::Check(file) => {
            let bytes = read(rt, file.path)?;
            check_day(&bytes, file.letters)?;
            println!(rt; "{words} -> ok ({} bytes, no fault)", bytes.len())?;
        }
        Command::Show(file) => {
            let bytes = read(rt, file.path)?;
            let sheet = Sheet::accept(&bytes, file.letters)?;
            println!(rt; "{words} -> ok{sheet}")?;
        }
        Command::Amounts(question) => {
            let amounts = question.amounts()?;
            println!(rt; "{words} -> ok{amounts}")?;
        }
        Command::Divide(division) => {
            let shares = division.shares()?;
            println!(rt; "{words} -> ok{shares}")?;
        }
    }
    Ok(())
}

/// The bytes of a file.
fn read<'a>(rt: &(impl Files + AllocGlobal), path: &'a str) -> Result<Vec<u8>, Failure<'a>> {
    fs::read(rt, path).map_err(|_| Failure::Unreadable(path))
}
