//! An object's line: JSON without spaces, and a line feed behind it, so that each line of an output is one object.

ghost use Rattle.std.specs.Prelude.{◌≡◌, ◌++◌, IfOk, false, string_bytes};
ghost use Rattle.text_out.specs.TextLine.{line_end};
ghost use Rattle.serde_json.specs.Data.{Data};
ghost use Rattle.serde_json.specs.Written.{has_float};
ghost use Rattle.elide_object.specs.Object.{Sends, object_text};

use serde::Serialize;
use std::alloc::{AllocError, Global};

/// An object as JSON without spaces, on a line of its own. Refused for want of memory alone.
pub fn object_line<T: Serialize>(alloc: Global, object: &T) -> Result<String, AllocError>
    ensures { IfOk result (λ line. (value : Data) → Sends (T.writes object.now) value → has_float value ≡ false →
        string_bytes line ≡ object_text value) }
{
    match serde_json::to_string(alloc, object) {
        Ok(text) => ended(text),
        Err(_) => Err(AllocError),
    }
}

// A text, with a line feed behind it.
fn ended(text: String) -> Result<String, AllocError>
    ensures { IfOk result (λ line. string_bytes line ≡ string_bytes text ++ line_end) }
{
    let mut line = text;
    line.push_str("\n")?;
    Ok(line)
}
