//! The parts of the line that tells a fault, on a row of 160 bytes.
//!
//! [`push_front`], then [`push_name`], then [`push_back`], which ends the line. Who tells the line (`elide_command`,
//! `elide_test`) paints the front or not. Nothing is written to a device here.

ghost use Rattle.std.specs.Prelude.{◌≡◌, ◌+◌, ◌≤◌, ◌++◌, ℕ, List};
ghost use Rattle.arrayvec.specs.ArrayVec.{array_vec_len};
ghost use Rattle.elide_setup.specs.Told.{fault_back, fault_front, line_words};

use crate::fault::Fault;
use arrayvec::ArrayString;
use std::fmt::Write;
use text_out::page::{push, push_decimal};
use text_out::text_line::{TextLine, push_number};

// A fault's name. The longest has some 20 bytes.
type Name = ArrayString<64>;

/// Adds what stands before a fault's name: `fault` and its number.
pub fn push_front(row: &mut TextLine, fault: Fault)
    requires { array_vec_len row.old + 10 ≤ 160 }
    ensures text { row.new.items ≡ row.old.items ++ fault_front fault }
    ensures len { array_vec_len row.new ≤ array_vec_len row.old + 10 }
{
    push(row, b"fault ");
    push_number(row, fault.code());
    push(row, b" ");
}

/// Adds a fault's name.
pub fn push_name(row: &mut TextLine, fault: Fault)
    requires { array_vec_len row.old + 64 ≤ 160 }
    ensures text { (name : List ℕ) × (row.new.items ≡ row.old.items ++ name) }
    ensures len { array_vec_len row.new ≤ array_vec_len row.old + 64 }
{
    let mut name = Name::new();
    // A name that is longer is cut short.
    let _ = write!(name, "{fault}");
    push(row, name.as_str().as_bytes());
}

/// Adds what stands behind a fault's name: the line of a text that it is told of, if any, and the line's end.
pub fn push_back(row: &mut TextLine, fault: Fault)
    requires { array_vec_len row.old + 27 ≤ 160 }
    ensures text { row.new.items ≡ row.old.items ++ fault_back fault }
{
    push_place(row, fault.line());
    push(row, b"\n");
}

// The line, if any.
fn push_place(row: &mut TextLine, line: Option<usize>)
    requires { array_vec_len row.old + 26 ≤ 160 }
    ensures text { row.new.items ≡ row.old.items ++ line_words line }
    ensures len { array_vec_len row.new ≤ array_vec_len row.old + 26 }
{
    if let Some(number) = line {
        push(row, b" line ");
        push_decimal(row, number as u64);
    }
}
