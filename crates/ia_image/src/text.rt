//! Image text: a line `image 1 BASE CODE` with two numbers in hex, and then the bytes of the image as lines of hex
//! digits.

ghost use Rattle.std.specs.Prelude.{◌≡◌, ◌<◌, ◌≤◌, IfSome, MatchResult, Ok, [], length, true};
ghost use Rattle.std.specs.Char.{digit_value};
ghost use Rattle.std.specs.List.{list_all, prefix_len};
ghost use Rattle.std.specs.Str.Parse.{digits_value};
ghost use Rattle.ia_image.specs.ImageText.{Adds, Tells, bytes_of_line, bytes_of_lines, header_of, image_read, is_hex};
ghost use Rattle.ia_image.specs.ImageText.{number_in_front};
ghost use Rattle.ia_lex.specs.Lines.{lines_of};
ghost use Rattle.hex.specs.Hex.{decode_of};

use crate::fault::ImageFault;
use ia_lex::first_line;
use std::alloc::Global;

/// What an image text says.
#[derive(Debug, Drop)]
pub struct ImageText {
    /// The bytes of the image.
    pub bytes: Vec<u8>,
    /// The address of the first byte.
    pub base: u32,
    /// How many of the bytes are code, as the text says.
    pub code_len: u32,
}

fn is_hex(byte: u8) -> bool
    ensures { result ≡ is_hex byte }
{
    char::from(byte).is_digit(16)
}

// How many hex digits stand in front.
#[tactic(auto, using(ia_lex::proofs::Fronts::prefix_steps))]
fn digits_in_front(text: &[u8]) -> usize
    ensures count { result ≡ prefix_len is_hex text.now }
    ensures within { result ≤ length text.now }
{
    for (place, byte) in text.iter().enumerate() {
        if !is_hex(*byte) {
            return place;
        }
    }
    text.len()
}

fn digit(byte: u8) -> u32
    requires { is_hex byte ≡ true }
    ensures digit { result ≡ digit_value byte }
    ensures small { result < 16 }
{
    char::from(byte).to_digit(16).unwrap_or(0)
}

// The number that up to 8 hex digits write.
#[tactic(auto, using(crate::proofs::Fronts::value_steps))]
fn value(digits: &[u8]) -> u32
    requires digits { list_all is_hex digits.now ≡ true }
    requires few { length digits.now ≤ 8 }
    ensures { result ≡ digits_value 16 digits.now }
{
    let mut number: u32 = 0;
    for byte in digits {
        number = number * 16 + digit(*byte);
    }
    number
}

// The number of 1 to 8 hex digits in front, and how many digits it has.
#[tactic(auto, using(crate::proofs::Fronts::digits_of_front), unfolding(crate::specs::ImageText::number_in_front))]
fn number_in_front(text: &[u8]) -> Option<(u32, usize)>
    ensures number { result ≡ number_in_front text.now }
    ensures within { IfSome result (λ x. x.1 ≤ length text.now) }
{
    let count = digits_in_front(text);
    if 0 < count && count <= 8 {
        Some((value(&text[..count]), count))
    } else {
        None
    }
}

// The base and the code length of the first line.
#[tactic(auto, unfolding(crate::specs::ImageText::header_of))]
fn header(line: &[u8]) -> Option<(u32, u32)>
    ensures { result ≡ header_of line.now }
{
    if !line.starts_with(b"image 1 ") {
        return None;
    }
    let numbers = &line[8..];
    let (base, count) = number_in_front(numbers)?;
    let rest = &numbers[count..];
    if !rest.starts_with(b" ") {
        return None;
    }
    let last = &rest[1..];
    let (code_len, count) = number_in_front(last)?;
    if count == last.len() {
        Some((base, code_len))
    } else {
        None
    }
}

// The bytes that a line of digits writes.
fn push_line(bytes: &mut Vec<u8>, line: &[u8], number: usize) -> Result<(), ImageFault>
    ensures { Adds bytes.old.items bytes.new.items (bytes_of_line (decode_of line.now) number (Ok [])) result }
{
    if line.len() % 2 != 0 {
        return Err(ImageFault::BadImageText(number));
    }
    let start = bytes.as_slice().len();
    bytes.resize(start + line.len() / 2, 0)?;
    match hex::decode_to_slice(line, &mut bytes[start..]) {
        Ok(()) => Ok(()),
        Err(_) => Err(ImageFault::BadImageText(number)),
    }
}

// The bytes of the lines behind the first.
fn push_lines(bytes: &mut Vec<u8>, text: &[u8]) -> Result<(), ImageFault>
    ensures { Adds bytes.old.items bytes.new.items (bytes_of_lines 2 (lines_of text.now)) result }
{
    let mut place = 0;
    let mut number = 2;
    'lines: while place < text.len() {
        let (line, taken) = first_line(&text[place..]);
        push_line(bytes, line, number)?;
        place += taken;
        number += 1;
    }
    Ok(())
}

/// Reads an image text: a line `image 1 BASE CODE` with the base and the code length as 1 to 8 hex digits, then lines
/// of an even number of hex digits each, of either case. Lines end at LF or CR LF, the last may have no end, and
/// empty ones are skipped. Of any other text 27 `BadImageText` with the first line that breaks the form, counted from 1
/// (1 for an empty text); 26 `NoMemory`.
#[tactic(auto, unfolding(crate::specs::ImageText::image_read))]
pub fn read_image(alloc: Global, text: &[u8]) -> Result<ImageText, ImageFault>
    ensures { MatchResult result
        (λ x. image_read text.now ≡ Ok (record { bytes = x.bytes.items; base = x.base; code_len = x.code_len }))
        (Tells (image_read text.now)) }
{
    if text.is_empty() {
        return Err(ImageFault::BadImageText(1));
    }
    let (line, taken) = first_line(text);
    let Some((base, code_len)) = header(line) else {
        return Err(ImageFault::BadImageText(1));
    };
    let rest = &text[taken..];
    let mut bytes = Vec::with_capacity(alloc, rest.len() / 2)?;
    push_lines(&mut bytes, rest)?;
    Ok(ImageText {
        bytes,
        base,
        code_len,
    })
}
