//! The text of an object, with no line feed behind it: [`text_of`], for a row within an object that is still being
//! written.
//!
//! Whole objects, which end a line, are made by `elide_object`.

ghost use Rattle.std.specs.Prelude.{◌≡◌, IfOk, false, string_bytes};
ghost use Rattle.elide_object.specs.Object.{Sends};
ghost use Rattle.serde_json.specs.Data.{Data};
ghost use Rattle.serde_json.specs.Written.{compact_text, has_float};

use serde::Serialize;
use std::alloc::{AllocError, Global};

/// An object as JSON without spaces. Refused for want of memory alone.
pub fn text_of<T: Serialize>(alloc: Global, object: &T) -> Result<String, AllocError>
    ensures { IfOk result (λ text. (value : Data) → Sends (T.writes object.now) value → has_float value ≡ false →
        string_bytes text ≡ compact_text value) }
{
    match serde_json::to_string(alloc, object) {
        Ok(text) => Ok(text),
        Err(_) => Err(AllocError),
    }
}
