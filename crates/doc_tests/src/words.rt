//! The words of a command as a shell has them: quotes, and the files that its input and output go to.

use std::alloc::{AllocError, Global};

/// A command's words, and the files that it reads as its input and writes its output to.
#[derive(Debug, Drop)]
pub struct CommandWords {
    /// The words.
    pub words: Vec<String>,
    /// The file behind `<`.
    pub input: Option<String>,
    /// The file behind `>`.
    pub output: Option<String>,
}

/// Reads a command: words between spaces, or between double quotes; `< PATH` and `> PATH` are no words of it.
pub fn line_of(alloc: Global, command: &str) -> Result<CommandWords, AllocError> {
    let mut line = CommandWords {
        words: Vec::new(alloc),
        input: None,
        output: None,
    };
    let mut quoted = false;
    for piece in command.split('"') {
        if quoted {
            push(alloc, &mut line.words, piece)?;
        } else {
            take_plain(alloc, &mut line, piece)?;
        }
        quoted = !quoted;
    }
    Ok(line)
}

// The words of a part without quotes.
fn take_plain(alloc: Global, line: &mut CommandWords, piece: &str) -> Result<(), AllocError> {
    let mut next = NextWord::Word;
    for word in piece.split_whitespace() {
        next = take_word(alloc, line, next, word)?;
    }
    Ok(())
}

// What the next word is.
#[derive(Clone, Copy, Debug)]
enum NextWord {
    Word,
    Input,
    Output,
}

fn take_word(
    alloc: Global,
    line: &mut CommandWords,
    next: NextWord,
    word: &str,
) -> Result<NextWord, AllocError> {
    match (next, word) {
        (NextWord::Word, "<") => return Ok(NextWord::Input),
        (NextWord::Word, ">") => return Ok(NextWord::Output),
        (NextWord::Word, _) => push(alloc, &mut line.words, word)?,
        (NextWord::Input, _) => line.input = Some(word.to_owned(alloc)?),
        (NextWord::Output, _) => line.output = Some(word.to_owned(alloc)?),
    }
    Ok(NextWord::Word)
}

fn push(alloc: Global, words: &mut Vec<String>, word: &str) -> Result<(), AllocError> {
    words.push(word.to_owned(alloc)?).map_err(|_| AllocError)
}
