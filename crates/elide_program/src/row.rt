//! Rows of values: [`add`], whose clause says what the row holds behind it, and whose one refusal is want of memory; of
//! a row of texts [`add_text`], whose clause says what the texts are.

ghost use Rattle.std.specs.Prelude.{◌≡◌, ◌++◌, ◌∷◌, [], OnOk};
ghost use Rattle.elide_args.specs.Asked.{texts_of};

use std::alloc::AllocError;

/// Adds one at the end.
pub fn add<T: Drop>(row: &mut Vec<T>, value: T) -> Result<(), AllocError>
    ensures { OnOk result (row.new.items ≡ row.old.items ++ value ∷ []) }
{
    match row.push(value) {
        Ok(()) => Ok(()),
        Err(_) => Err(AllocError),
    }
}

/// Adds a text at the end.
pub fn add_text<'a>(row: &mut Vec<&'a str>, text: &'a str) -> Result<(), AllocError>
    ensures { OnOk result (texts_of row.new.items ≡ texts_of row.old.items ++ text.now ∷ []) }
{
    row.push(text)?;
    Ok(())
}
