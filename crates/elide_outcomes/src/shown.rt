//! The words of `--show`, as they were given, for who prints them.
//!
//! [`words_of`] parts them where `items` does, at white space, so that there are as many as values. It comes behind the
//! search, which refused words that say nothing: only memory can be wanting here.

ghost use Rattle.std.specs.Prelude.{IfOk};
ghost use Rattle.std.specs.Option.{option_copied};
ghost use Rattle.elide_args.specs.Asked.{texts_of};
ghost use Rattle.elide_outcomes.specs.Items.{AreWords, AreWordsOf};

use elide_program::add_text;
use std::alloc::{AllocError, Global};

/// The words of the option's value, with white space between; none where it is not given.
pub fn words_of<'a>(alloc: Global, text: Option<&'a str>) -> Result<Vec<&'a str>, AllocError>
    ensures { IfOk result (λ words. AreWordsOf (option_copied text.entry) (texts_of words.items)) }
{
    match text {
        Some(text) => words_in(alloc, text),
        None => Ok(Vec::new(alloc)),
    }
}

// Those of a text.
fn words_in<'a>(alloc: Global, text: &'a str) -> Result<Vec<&'a str>, AllocError>
    ensures { IfOk result (λ words. AreWords text.now (texts_of words.items)) }
{
    let mut words = Vec::new(alloc);
    for word in text.split_whitespace() {
        add_text(&mut words, word)?;
    }
    Ok(words)
}
