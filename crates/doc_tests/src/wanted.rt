//! What a command of a row came to against what the row says.

/// What a command came to.
#[derive(Clone, Copy, Debug)]
pub struct ReplyText<'a> {
    /// The exit status.
    pub status: u8,
    /// What stands on standard output.
    pub out: &'a str,
    /// What stands on standard error.
    pub err: &'a str,
}

/// What the three devices of a command are.
#[derive(Clone, Copy, PartialEq, Eq, Debug)]
pub enum Devices {
    /// Files.
    Files,
    /// A terminal's, where no colours are asked for.
    PlainTerminal,
    /// A terminal's.
    Terminal,
}

/// How many bytes the outputs of a command take, and its input gives, before they fail; and what these devices are.
#[derive(Clone, Copy, Debug)]
pub struct Room {
    /// Standard input.
    pub input: usize,
    /// Standard output.
    pub out: usize,
    /// Standard error.
    pub err: usize,
    /// What all three are.
    pub devices: Devices,
}

// The lines that say that the devices are a terminal's.
const AT_PLAIN_TERMINAL: &str = "at a terminal";

const AT_TERMINAL: &str = "at a terminal in colours";

/// Whether the lines below a command say just this status, standard output and standard error. `before` is what the
/// row's command before printed.
pub fn is_wanted(lines: &[&str], reply: ReplyText<'_>, before: &str) -> bool {
    is_status(lines, reply.status)
        && is_output(lines, reply.out, before)
        && is_error(lines, reply.err)
}

/// How many bytes the input gives and the outputs take: those of the lines `gives N`, `takes N` and `hears N`, or all.
/// A line `at a terminal`, or `at a terminal in colours`, says that they are a terminal's.
pub fn room_of(lines: &[&str]) -> Room {
    Room {
        input: number_behind(lines, "gives "),
        out: number_behind(lines, "takes "),
        err: number_behind(lines, "hears "),
        devices: devices_of(lines),
    }
}

// What the devices are: files, where nothing is said.
fn devices_of(lines: &[&str]) -> Devices {
    if lines.contains(&AT_TERMINAL) {
        Devices::Terminal
    } else if lines.contains(&AT_PLAIN_TERMINAL) {
        Devices::PlainTerminal
    } else {
        Devices::Files
    }
}

// The number behind this mark, in the first line that begins with it.
fn number_behind(lines: &[&str], mark: &str) -> usize {
    let said = lines.iter().find_map(|line| line.strip_prefix(mark));
    match said {
        Some(word) => word.parse::<usize>().unwrap_or(0),
        None => usize::MAX,
    }
}

// Whether a status is that of the line `exit N`, or 0.
fn is_status(lines: &[&str], status: u8) -> bool {
    match lines.iter().find_map(|line| line.strip_prefix("exit ")) {
        Some(word) => word.parse::<u8>() == Ok(status),
        None => status == 0,
    }
}

fn is_output(lines: &[&str], said: &str, before: &str) -> bool {
    let mut left = said;
    for line in lines {
        if is_of_output(line) {
            match behind(line, left, before) {
                Some(rest) => left = rest,
                None => return false,
            }
        }
    }
    left.is_empty()
}

fn is_error(lines: &[&str], said: &str) -> bool {
    let mut left = said;
    for line in lines {
        if let Some(line) = line.strip_prefix("! ") {
            match behind(line, left, "") {
                Some(rest) => left = rest,
                None => return false,
            }
        }
    }
    left.is_empty()
}

// Whether a line is the exit status, or says what its devices are.
fn is_setting(line: &str) -> bool {
    let marks = ["exit ", "gives ", "takes ", "hears "];
    let is_device = line == AT_TERMINAL || line == AT_PLAIN_TERMINAL;
    is_device || marks.iter().any(|mark| line.starts_with(*mark))
}

fn is_of_output(line: &str) -> bool {
    !line.starts_with("! ") && !is_setting(line)
}

// What is left behind a line, where the text begins with it: `...` is all that is left, and something; `^` is what the
// command before printed; `*N LINE` is a line that stands there N times; `~ LINE` is any lines, and then this one.
fn behind<'s>(line: &str, text: &'s str, before: &str) -> Option<&'s str> {
    if line == "..." {
        return if text.is_empty() { None } else { Some("") };
    }
    if line == "^" {
        return text.strip_prefix(before);
    }
    if let Some(line) = line.strip_prefix("~ ") {
        return behind_some(line, text);
    }
    match repeated(line) {
        Some((count, line)) => behind_all(count, line, text),
        None => behind_one(line, text),
    }
}

// What is left behind the first of some lines that is this one.
fn behind_some<'s>(line: &str, text: &'s str) -> Option<&'s str> {
    let mut left = text;
    for _ in text.lines() {
        if let Some(rest) = behind_one(line, left) {
            return Some(rest);
        }
        left = behind_any(left)?;
    }
    None
}

// What is left behind a line, whatever it is.
fn behind_any<'s>(text: &'s str) -> Option<&'s str> {
    let (_, rest) = text.split_once('\n')?;
    Some(rest)
}

// The count and the line of `*N LINE`.
fn repeated(line: &str) -> Option<(usize, &str)> {
    let (count, line) = line.strip_prefix('*')?.split_once(' ')?;
    Some((count.parse::<usize>().ok()?, line))
}

// What is left behind so many lines.
fn behind_all<'s>(count: usize, line: &str, text: &'s str) -> Option<&'s str> {
    let mut left = text;
    for _ in 0..count {
        left = behind_one(line, left)?;
    }
    Some(left)
}

// What is left behind a line; one that ends in ` ...` is one that begins so, and one that ends in a backslash goes on
// in the next.
fn behind_one<'s>(line: &str, text: &'s str) -> Option<&'s str> {
    if let Some(piece) = line.strip_suffix('\\') {
        return text.strip_prefix(piece);
    }
    let (first, rest) = text.split_once('\n')?;
    let is_same = match line.strip_suffix(" ...") {
        Some(front) => first.starts_with(front),
        None => first == line,
    };
    if is_same { Some(rest) } else { None }
}
