//! A report as JSON: [`json_line`] makes the whole line in memory, with a line feed, and prints nothing.
//!
//! Its members are those of the types in `report`, in their order.

use crate::report::Report;
use std::alloc::{AllocError, Global};

/// A report as one JSON object, on a line of its own.
pub fn json_line(alloc: Global, report: &Report) -> Result<String, AllocError> {
    let mut text = serde_json::to_string(alloc, report).map_err(|_| AllocError)?;
    text.push_str("\n")?;
    Ok(text)
}
