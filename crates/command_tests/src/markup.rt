//! A reader of XML documents without declarations, comments and sections, which tells whether they are well-formed.

use arrayvec::ArrayVec;

/// Why a text is no document.
#[derive(Clone, Copy, PartialEq, Eq, Debug)]
pub enum Fault {
    /// A tag does not end.
    OpenTag,
    /// An end tag is not that of the element that is open.
    OtherEnd,
    /// An element does not end, or more are open than 16.
    OpenElement,
    /// A mark stands where it has to be escaped.
    StrayMark,
    /// An attribute has no value between quotes.
    Attribute,
}

/// Reads a document, and tells how many elements it has.
pub fn elements_of(text: &str) -> Result<usize, Fault> {
    let mut reader = Reader {
        open: ArrayVec::new(),
        count: 0,
    };
    let mut rest = text;
    for _ in 0..text.len() {
        let Some((content, after)) = rest.split_once('<') else {
            break;
        };
        let (tag, behind) = after.split_once('>').ok_or(Fault::OpenTag)?;
        if !is_content(content) {
            return Err(Fault::StrayMark);
        }
        reader.take(tag)?;
        rest = behind;
    }
    if reader.open.is_empty() && is_content(rest) {
        Ok(reader.count)
    } else {
        Err(Fault::OpenElement)
    }
}

// The elements that are open, and how many there were.
#[derive(Drop)]
struct Reader<'a> {
    open: ArrayVec<&'a str, 16>,
    count: usize,
}

impl<'a> Reader<'a> {
    // Takes a tag, without its angles.
    fn take(&mut self, tag: &'a str) -> Result<(), Fault> {
        if let Some(name) = tag.strip_prefix('/') {
            return match self.open.pop() {
                Some(open) if open == name => Ok(()),
                _ => Err(Fault::OtherEnd),
            };
        }
        self.count = self.count.saturating_add(1);
        if !has_attributes(tag) {
            return Err(Fault::Attribute);
        }
        if tag.ends_with('/') {
            return Ok(());
        }
        match self.open.try_push(name_of(tag)) {
            Ok(()) => Ok(()),
            Err(_) => Err(Fault::OpenElement),
        }
    }
}

// The name in a tag.
fn name_of(tag: &str) -> &str {
    match tag.split_once(' ') {
        Some((name, _attributes)) => name,
        None => tag,
    }
}

// Whether each attribute of a tag has a value between single quotes, in which no mark is.
fn has_attributes(tag: &str) -> bool {
    let mut quotes: usize = 0;
    for part in tag.split('\'') {
        quotes = quotes.saturating_add(1);
        if quotes % 2 == 1
            && quotes > 1
            && !(part.is_empty() || part == "/" || part.ends_with('='))
        {
            return false;
        }
        if !is_content(part) {
            return false;
        }
    }
    quotes % 2 == 1
}

// Whether each mark of a text is escaped.
fn is_content(text: &str) -> bool {
    let mut rest = text;
    for _ in 0..text.len() {
        let Some((before, after)) = rest.split_once('&') else {
            break;
        };
        let Some((name, behind)) = after.split_once(';') else {
            return false;
        };
        if before.contains('>') || !is_reference(name) {
            return false;
        }
        rest = behind;
    }
    !rest.contains('>') && !rest.contains('&')
}

// Whether a reference is one of those that XML knows, or a number's.
fn is_reference(name: &str) -> bool {
    matches!(name, "lt" | "gt" | "amp" | "apos" | "quot") || name.starts_with('#')
}
