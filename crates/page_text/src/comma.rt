//! The commas of a list whose texts are written one by one, by [`write_comma`] before each.

ghost use Rattle.text_out.specs.Writing.{Writes};
ghost use Rattle.page_text.specs.Commas.{comma_if};

use text_out::{Out, WriteFault};

/// Writes a comma, where something was written before. On 5 `Write` the count of failures rose.
pub fn write_comma<O: Out>(some: bool, out: &mut O) -> Result<(), WriteFault>
    ensures { Writes (O.device out.old) (O.device out.new) (comma_if some) result }
{
    if some {
        out.put(b",")?;
    }
    Ok(())
}
