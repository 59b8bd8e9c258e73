//! Lines of the input: [`read_line`].
//!
//! A byte is read at a time, so that what stands behind a line is left for who reads next. A line ends with a line
//! feed, a carriage return before that does not count, and the last needs none. One that is too long is read up to
//! its end and not kept. What a line requests is made out in `session`.

ghost use Rattle.std.specs.Prelude.{◌≡◌, ◌++◌, ◌∷◌, ℕ, List, [], IfOk, OnErr, OnOk, Option, Some, None, if◌then◌else◌};
ghost use Rattle.std.specs.Prelude.{option_to_list};
ghost use Rattle.ia_lex.specs.Lines.{without_cr};
ghost use Rattle.text_out.specs.Writing.{Rose};
ghost use Rattle.std.specs.Io.KnownBytes.{Keeps};
ghost use Rattle.tm_debug.specs.Serving.{BeginsLine, IsKept, IsLast, IsLine, ReadsLine};

use crate::input::In;
use arrayvec::ArrayVec;
use ia_lex::without_cr;
use std::sync::Wait;
use text_out::Failed;

/// The most bytes that a line of a command has, without its end.
pub const MOST_BYTES: usize = 256;

/// The bytes of a line, with room for a carriage return.
pub type Bytes = ArrayVec<u8, 257>;

/// A line of the input, without its end.
#[derive(Clone, Debug, Drop)]
pub enum InputLine {
    /// There is none: the input is at its end.
    End,
    /// At most 256 bytes.
    Text(Bytes),
    /// More than 256 bytes.
    Long,
}

/// The beginning of a line: its bytes, and whether there are more than have room.
#[derive(Drop)]
pub struct LineStart {
    row: Bytes,
    long: bool,
}

// A line of these bytes.
fn line_of(bytes: &[u8]) -> InputLine
    ensures { IsLine bytes.now result }
{
    if bytes.len() > MOST_BYTES {
        return InputLine::Long;
    }
    let mut row = Bytes::new();
    let _ = row.try_extend_from_slice(bytes);
    InputLine::Text(row)
}

impl LineStart {
    fn new() -> LineStart
        ensures { IsKept [] result }
    {
        LineStart {
            row: Bytes::new(),
            long: false,
        }
    }

    // Adds the next byte.
    fn add(&mut self, byte: u8)
        ensures { (taken : List ℕ) → IsKept taken self.old → IsKept (taken ++ byte ∷ []) self.new }
    {
        if self.row.is_full() {
            self.long = true;
        } else {
            self.row.push(byte);
        }
    }

    // The line, where the end of the input follows.
    fn at_end(&self) -> InputLine
        ensures { (taken : List ℕ) → IsKept taken self.now → IsLast taken result }
    {
        if self.long {
            InputLine::Long
        } else if self.row.is_empty() {
            InputLine::End
        } else {
            line_of(self.row.as_slice())
        }
    }

    // The line, where a line feed follows.
    #[tactic(auto, using(crate::proofs::Feeds::still_long))]
    fn at_feed(&self) -> InputLine
        ensures { (taken : List ℕ) → IsKept taken self.now → IsLine (without_cr taken) result }
    {
        if self.long {
            InputLine::Long
        } else {
            line_of(without_cr(self.row.as_slice()))
        }
    }
}

// The next byte, or nothing at the end.
fn next_byte<I: In>(input: &mut I) -> Result<Option<u8>, Failed>
    ensures byte { IfOk result (λ byte. (xs : List ℕ) → I.remaining input.old ≡ Some xs → (ys : List ℕ)
        × (I.remaining input.new ≡ Some ys) × (xs ≡ option_to_list byte ++ ys) × (byte ≡ None → ys ≡ [])) }
    ensures kept { OnOk result (I.failed input.new ≡ I.failed input.old) }
    ensures err { OnErr result (Rose (I.failed input.old) (I.failed input.new)) }
    ensures stays { OnErr result (Keeps (I.remaining input.old) (I.remaining input.new)) }
{
    let mut byte = [0];
    let count = input.get(&mut byte)?;
    Ok(if count == 0 { None } else { Some(byte[0]) })
}

/// The next line, which is read a byte at a time, so that nothing behind it is taken.
pub fn read_line<W: Wait, I: In>(rt: &W, input: &mut I) -> Result<InputLine, Failed>
    ensures line { IfOk result (λ line. (xs : List ℕ) → I.remaining input.old ≡ Some xs → (ys : List ℕ)
        × (I.remaining input.new ≡ Some ys) × ReadsLine line xs ys) }
    ensures kept { OnOk result (I.failed input.new ≡ I.failed input.old) }
    ensures err { OnErr result (Rose (I.failed input.old) (I.failed input.new)) }
    ensures begun { OnErr result ((xs : List ℕ) → I.remaining input.old ≡ Some xs → (ys : List ℕ)
        × (I.remaining input.new ≡ Some ys) × BeginsLine xs ys) }
{
    let mut start = LineStart::new();
    'bytes: for _ in rt.forever() {
        let found = next_byte(input)?;
        let byte = match found {
            Some(byte) => byte,
            None => return Ok(start.at_end()),
        };
        if byte == b'\n' {
            return Ok(start.at_feed());
        }
        start.add(byte);
    }
    unreachable!()
}
