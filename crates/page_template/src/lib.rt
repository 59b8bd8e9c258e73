//! The page that `elide page` writes round a run's data: markup, style and script.
//!
//! [`write_head`] writes what stands before the data, with the title in it, and [`write_tail`] what stands behind. The
//! texts are constants ([`template`]) that scripts/refresh-page puts together from page/. What the script makes of the
//! data is tested in a browser (scripts/try-page); proved is which bytes are written. Takes no memory. Stands on
//! `page_text`.
#![tactic(auto)]

ghost use Rattle.std.specs.Prelude.{◌++◌};
ghost use Rattle.text_out.specs.Writing.{Writes};
ghost use Rattle.page_text.specs.Escaped.{title_text};

pub mod template;

use crate::template::{HEAD, MIDDLE, TAIL};
use page_text::write_title;
use text_out::{Out, WriteFault};

/// Writes the page up to its data, with its title, of which at most [`page_text::TITLE`] characters stand. On 5 `Write`
/// a beginning of it was written, and the count of failures rose.
pub fn write_head<O: Out>(title: &[u8], out: &mut O) -> Result<(), WriteFault>
    ensures { Writes (O.device out.old) (O.device out.new) (HEAD.now ++ (title_text title.now 200 ++ MIDDLE.now))
        result }
{
    out.put(HEAD.as_bytes())?;
    write_title(title, page_text::TITLE, out)?;
    out.put(MIDDLE.as_bytes())?;
    Ok(())
}

/// Writes the page behind its data. On 5 `Write` a beginning of it was written, and the count of failures rose.
pub fn write_tail<O: Out>(out: &mut O) -> Result<(), WriteFault>
    ensures { Writes (O.device out.old) (O.device out.new) TAIL.now result }
{
    out.put(TAIL.as_bytes())?;
    Ok(())
}
