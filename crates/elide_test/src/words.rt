//! The words of a test's command: [`words_of`] puts FILE behind the first one, that of the subcommand.
//!
//! Bytes that are no UTF-8 make the command's line none of a test. Where words part is read by `elide_expect`; what
//! they say is read by the command itself, so that a wrong option is a status and no refusal here.

ghost use Rattle.std.specs.Prelude.{◌≡◌, IfOk, string_bytes};
ghost use Rattle.elide_args.specs.Asked.{texts_of};
ghost use Rattle.elide_expect.specs.Words.{texts};
ghost use Rattle.elide_test.specs.Tried.{first_of, with_file};

use crate::stop::Stop;
use elide_expect::Test;
use elide_program::add_text;
use std::alloc::Global;
use std::str;

/// A text; bytes that are none stand on this line.
pub fn text_of(bytes: &[u8], line: usize) -> Result<&str, Stop>
    ensures { IfOk result (λ text. text.now ≡ bytes.now) }
{
    match str::from_utf8(bytes) {
        Ok(text) => Ok(text),
        Err(_) => Err(Stop::BadTest(line)),
    }
}

/// The words of a test's command, with FILE behind that of the subcommand.
pub fn words_of<'a>(alloc: Global, file: &'a str, test: &'a Test<'_>) -> Result<Vec<&'a str>, Stop>
    ensures { IfOk result (λ words. texts_of words.items ≡ with_file file.now (texts test.now.words.items)) }
{
    words_with(alloc, file, test.words.as_slice(), test.line)
}

fn words_with<'a>(
    alloc: Global,
    file: &'a str,
    words: &'a [Vec<u8>],
    line: usize,
) -> Result<Vec<&'a str>, Stop>
    ensures { IfOk result (λ all. texts_of all.items ≡ with_file file.now (texts words.now)) }
{
    let mut all = Vec::new(alloc);
    let Some((first, rest)) = words.split_first() else {
        return Ok(all);
    };
    add_text(&mut all, text_of(first.as_slice(), line)?)?;
    add_text(&mut all, file)?;
    for word in rest {
        add_text(&mut all, text_of(word.as_slice(), line)?)?;
    }
    Ok(all)
}

/// The first word of a test's command.
pub fn first_word(alloc: Global, test: &Test<'_>) -> Result<String, Stop>
    ensures { IfOk result (λ word. string_bytes word ≡ first_of (texts test.now.words.items)) }
{
    match test.words.as_slice().first() {
        Some(word) => Ok(String::from_str(alloc, text_of(word.as_slice(), test.line)?)?),
        None => Ok(String::new(alloc)),
    }
}
