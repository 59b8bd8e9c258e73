//! The prompt of a spoken session.
//!
//! It stands before the first line is read, and then behind each answer but the last. A plain session has none, so
//! that what it writes is answers alone.

ghost use Rattle.std.specs.Prelude.{◌≡◌};
ghost use Rattle.tm_debug.specs.Serving.{Prompts};

use debug_command::Manner;
use text_out::{Out, WriteFault};

/// Asks for the next line, where the session is spoken.
pub fn prompt<O: Out>(manner: Manner, out: &mut O) -> Result<(), WriteFault>
    ensures { Prompts manner (O.device out.old) (O.device out.new) result }
{
    match manner {
        Manner::Plain => {}
        Manner::Spoken => out.put(b"elide> ")?,
    }
    Ok(())
}
