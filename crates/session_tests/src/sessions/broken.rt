//! Sessions whose devices end or fail, and whose memory is refused: what was answered, and the board that is given
//! back.

use super::{board, no_names};
use debug_command::Manner;
use std::alloc::Global;
use std::io::{self, ErrorKind, Read, Write};
use std::process::Abort;
use std::sync::Wait;
use std::test::Fail;
use text_out::{Out, ToVec, ToWriter};
use tm_debug::{FromReader, In, Session, SessionFault, serve_in};
use tm_hist::Board;

/// Gives these bytes, and then ends, or fails.
#[derive(Drop)]
struct Tape<'a> {
    left: &'a [u8],
    fails: bool,
}

impl Read for Tape<'_> {
    fn read(&mut self, buf: &mut [u8]) -> io::Result<usize> {
        if self.fails && self.left.is_empty() {
            return Err(io::Error::from(ErrorKind::ConnectionReset));
        }
        self.left.read(buf)
    }
}

/// Takes so many bytes, and then fails.
#[derive(Drop)]
struct Narrow {
    taken: Vec<u8>,
    room: usize,
}

impl Write for Narrow {
    fn write(&mut self, buf: &[u8]) -> io::Result<usize> {
        if self.room == 0 {
            return Err(io::Error::from(ErrorKind::BrokenPipe));
        }
        let count = buf.len().min(self.room);
        self.room -= count;
        self.taken.extend_from_slice(&buf[..count])?;
        Ok(count)
    }

    fn flush(&mut self) -> io::Result<()> {
        Ok(())
    }
}

// The fault's number, or 0 where there was none, and how many steps the board has made.
fn came_to(served: Result<Board, SessionFault>) -> (u8, u64) {
    match served {
        Ok(board) => (0, board.made()),
        Err(fault) => {
            let code = fault.code();
            (code, fault.board().made())
        }
    }
}

#[test]
fn an_input_ends_or_fails(rt: HostRuntime) {
    // Lines, whether the device fails behind them, what is answered, and how many steps the board has made.
    let cases: [(&[u8], bool, &[u8], u64); 10] = [
        (b"", false, b"bye\n", 0),
        (b"step 0\nquit", false, b"0 begun\nbye\n", 1),
        (b"step 0\nstep 0", false, b"0 begun\n0 inside\nbye\n", 2),
        (b"step 0\nste", false, b"0 begun\nerror 70\nbye\n", 1),
        (b"step 0\n  ", false, b"0 begun\nbye\n", 1),
        (b"", true, b"", 0),
        (b"step 0", true, b"", 0),
        (b"step 0\n", true, b"0 begun\n", 1),
        (b"step 0\nstep 0\nquit", true, b"0 begun\n0 inside\n", 2),
        (
            b"run 3\nstep 9\nstep 0",
            true,
            b"0 begun\n0 inside\n0 inside\nerror 72\n",
            3,
        ),
    ];
    for (lines, fails, text, made) in cases {
        let mut input = FromReader::new(Tape { left: lines, fails });
        let mut out = ToVec::new(Vec::new(rt.alloc()));
        let board = board(&rt, rt.alloc(), &[0x100], 100);
        let served = Session::new(board, &mut input, &mut out).serve(&rt, rt.alloc());
        let (code, failures) = if fails { (76, 1) } else { (0, 0) };
        assert_eq!(rt; came_to(served), (code, made));
        assert_eq!(rt; out.bytes.as_slice(), text);
        assert_eq!(rt; (input.failures(), out.failures()), (failures, 0));
    }
}

// A session over these lines, with room for so many steps, writes just this much, all of it or not, and its board has
// made so many of them. Answers how many bytes of the lines are left.
fn cut<R: Abort + Wait>(
    rt: &R,
    alloc: Global,
    manner: Manner,
    limit: u64,
    lines: &[u8],
    text: &[u8],
    is_whole: bool,
    made: u64,
) -> usize {
    let mut input = FromReader::new(lines);
    let mut out = ToWriter::new(Narrow {
        taken: Vec::new(alloc),
        room: text.len(),
    });
    let served = serve_in(
        rt,
        alloc,
        manner,
        Vec::new(alloc),
        no_names(alloc),
        board(rt, alloc, &[0x100], limit),
        &mut input,
        &mut out,
    );
    let (code, failures) = if is_whole { (0, 0) } else { (77, 1) };
    assert_eq!(rt; came_to(served), (code, made), "at {}", text.len());
    assert_eq!(rt; out.writer.taken.as_slice(), text);
    assert_eq!(rt; (input.failures(), out.failures()), (0, failures));
    input.reader.len()
}

// A session stops at the byte for which there is no room, and reads no line more.
#[test]
fn a_plain_output_is_cut(rt: HostRuntime) {
    let lines = b"run 2\nsets 0\nstep 9\nquit\nstep 0\n".as_slice();
    let text = b"0 begun\n0 inside\nsets 0 tx1 reads 40 writes -\nerror 72\nbye\n".as_slice();
    for room in 0..=text.len() {
        let made = if room < 8 { 1 } else { 2 };
        let is_whole = room == text.len();
        let _ = cut(
            &rt,
            rt.alloc(),
            Manner::Plain,
            100,
            lines,
            &text[..room],
            is_whole,
            made,
        );
    }
}

// So does a spoken one, whose prompts are cut too.
#[test]
fn a_spoken_output_is_cut(rt: HostRuntime) {
    let lines = b"step 0\nstep 0\nquit\nleft".as_slice();
    let text = b"elide> 0 begun 00000100 xbegin 0x115\n\
        elide> error 74: the session has made its most steps\n\
        elide> bye\n"
        .as_slice();
    for room in 0..=text.len() {
        let made = if room < 7 { 0 } else { 1 };
        let is_whole = room == text.len();
        let left = cut(
            &rt,
            rt.alloc(),
            Manner::Spoken,
            1,
            lines,
            &text[..room],
            is_whole,
            made,
        );
        let want = if room < 7 {
            23
        } else if room < 44 {
            16
        } else if room < 97 {
            9
        } else {
            4
        };
        assert_eq!(rt; left, want, "at {room}");
    }
}

// With ample memory the sessions are served. Where an allocation is refused one ends at the line that wanted memory,
// `sets` or `back`: `rt try` has the option `--fail-alloc` for that.
#[test]
fn an_answer_wants_memory(rt: HostRuntime) -> Result<(), Fail> {
    let cases: [(&[u8], &[u8], u64); 2] = [
        (
            b"run 2\nsets 0\nstep 0\n",
            b"0 begun\n0 inside\nsets 0 tx1 reads 40 writes -\n0 inside\nbye\n",
            3,
        ),
        (
            b"run 2\nback 1\nstep 0\n",
            b"0 begun\n0 inside\nat step 1\n0 inside\nbye\n",
            2,
        ),
    ];
    for (lines, text, made) in cases {
        let mut input = FromReader::new(lines);
        let mut out = ToVec::new(Vec::with_capacity(rt.alloc(), 100)?);
        let board = board(&rt, rt.alloc(), &[0x100], 100);
        match Session::new(board, &mut input, &mut out).serve(&rt, rt.alloc()) {
            Ok(board) => {
                assert_eq!(rt; board.made(), made);
                assert_eq!(rt; out.bytes.as_slice(), text);
            }
            Err(fault) => {
                assert_eq!(rt; fault.code(), 78);
                assert_eq!(rt; fault.board().made(), 2);
                assert_eq!(rt; out.bytes.as_slice(), b"0 begun\n0 inside\n".as_slice());
                assert_eq!(rt; (input.failures(), out.failures()), (0, 0));
            }
        }
    }
    Ok(())
}
