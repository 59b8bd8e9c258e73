//! Pictures of runs that are told by hand.

use crate::markup::elements_of;
use std::alloc::{AllocError, Global};
use std::str;
use std::test::Fail;
use text_out::ToVec;
use tm_model::{Hit, Interference, Outcome};
use tm_sets::Kind;
use tm_timeline::{Label, LineLabels, Rows, Timeline, Window};

// A source whose line 6 is called `a<b`.
#[derive(Clone, Copy, Debug)]
struct Symbols;

impl LineLabels for Symbols {
    fn label(&self, line: u32) -> Label {
        if line == 6 {
            Label::of("a<b")
        } else {
            Label::new()
        }
    }
}

// The bytes of a picture of all cores.
fn picture(alloc: Global, timeline: &Timeline, title: &str, rows: &Rows) -> Result<Vec<u8>, Fail> {
    let mut out = ToVec::new(Vec::new(alloc));
    timeline.write(&Label::of(title), rows, &Symbols, &mut out)?;
    Ok(out.bytes)
}

// How often a word stands in a text.
fn count_of(text: &str, word: &str) -> usize {
    text.split(word).count().saturating_sub(1)
}

// Two cores: core 0 is hit by core 1 on line 6, and aborts; then it commits. Core 1 opens a transaction that does not
// end.
fn told(alloc: Global, window: Window) -> Result<Timeline, AllocError> {
    let mut timeline = Timeline::new(alloc, 2, window)?;
    timeline.note(0, Outcome::Begun)?;
    timeline.note(0, Outcome::Inside)?;
    let on = Some(Hit {
        line: 6,
        kind: Kind::Write,
    });
    timeline.hit(0, 1, on)?;
    timeline.note(1, Outcome::Plain)?;
    timeline.note(0, Outcome::Aborted(6))?;
    timeline.note(0, Outcome::Begun)?;
    timeline.note(0, Outcome::Committed)?;
    timeline.note(1, Outcome::Begun)?;
    timeline.note(0, Outcome::Begun)?;
    timeline.note(0, Outcome::Aborted(0xab00_0001))?;
    timeline.finish()?;
    Ok(timeline)
}

#[test]
fn a_small_run(rt: HostRuntime) -> Result<(), Fail> {
    let window = Window {
        from: 0,
        to: 9,
        total: 9,
    };
    let timeline = told(rt.alloc(), window)?;
    let bytes = picture(rt.alloc(), &timeline, "x.asm", &Rows::all(2))?;
    let text = str::from_utf8(bytes.as_slice())?;
    assert!(rt; elements_of(text).is_ok());
    // Of each class one bar, and one entry of the legend.
    assert_eq!(rt; count_of(text, "<rect class='b k'"), 2);
    assert_eq!(rt; count_of(text, "<rect class='b x'"), 2);
    assert_eq!(rt; count_of(text, "<rect class='b h'"), 2);
    assert_eq!(rt; count_of(text, "<rect class='b o'"), 2);
    assert_eq!(rt; count_of(text, "<rect class='b p'"), 2);
    // One arrow, with its dot, and that of the legend.
    assert_eq!(rt; count_of(text, "<path class='a'"), 2);
    assert!(rt; text.contains("core 0 is hit at step 3 by core 1, which writes line 6 a&lt;b"));
    assert!(rt; text.contains("core 0, steps 5 to 6: committed"));
    assert!(rt; text.contains("core 0, steps 8 to 9: aborted ab000001 xabort"));
    assert!(rt; text.contains("core 1, steps 7 to 9: not ended"));
    assert!(rt; text.contains("step 3: core 1 plain"));
    Ok(())
}

// A core is aborted from outside three times, the last one with the status of a conflict.
fn told_from_outside(alloc: Global, window: Window) -> Result<Timeline, AllocError> {
    let mut timeline = Timeline::new(alloc, 1, window)?;
    timeline.note(0, Outcome::Begun)?;
    timeline.note(0, Outcome::AbortedBy(Interference::Interrupt, 0))?;
    timeline.note(0, Outcome::Begun)?;
    timeline.note(0, Outcome::AbortedBy(Interference::Eviction, 8))?;
    timeline.note(0, Outcome::Begun)?;
    timeline.note(0, Outcome::AbortedBy(Interference::Snoop, 6))?;
    timeline.finish()?;
    Ok(timeline)
}

#[test]
fn aborts_from_outside(rt: HostRuntime) -> Result<(), Fail> {
    let window = Window {
        from: 0,
        to: 6,
        total: 6,
    };
    let timeline = told_from_outside(rt.alloc(), window)?;
    let bytes = picture(rt.alloc(), &timeline, "x.asm", &Rows::all(1))?;
    let text = str::from_utf8(bytes.as_slice())?;
    assert!(rt; elements_of(text).is_ok());
    // Three bars of other aborts, and of each other class but its entry of the legend; no arrow but that of the legend.
    assert_eq!(rt; count_of(text, "<rect class='b o'"), 4);
    assert_eq!(rt; count_of(text, "<rect class='b x'"), 1);
    assert_eq!(rt; count_of(text, "<path class='a'"), 1);
    assert!(rt; text.contains("core 0, steps 1 to 2: aborted 00000000 interrupt<"));
    assert!(rt; text.contains("core 0, steps 3 to 4: aborted 00000008 eviction<"));
    assert!(rt; text.contains("core 0, steps 5 to 6: aborted 00000006 snoop<"));
    Ok(())
}

#[test]
fn a_part_of_a_run(rt: HostRuntime) -> Result<(), Fail> {
    let window = Window {
        from: 5,
        to: 6,
        total: 9,
    };
    let timeline = told(rt.alloc(), window)?;
    let bytes = picture(rt.alloc(), &timeline, "x.asm", &Rows::all(2))?;
    let text = str::from_utf8(bytes.as_slice())?;
    assert!(rt; elements_of(text).is_ok());
    // The commit alone reaches into the window, and is drawn from its one end to the other.
    assert_eq!(rt; count_of(text, "<title>core 0, steps"), 1);
    assert!(rt; text.contains("<rect class='b k' x='64' y='46' width='1116' height='22'/>"));
    assert!(rt; text.contains("core 0, steps 5 to 6: committed"));
    Ok(())
}

#[test]
fn cores_that_are_drawn(rt: HostRuntime) -> Result<(), Fail> {
    let window = Window {
        from: 0,
        to: 9,
        total: 9,
    };
    let timeline = told(rt.alloc(), window)?;
    let mut rows = Rows::new();
    assert!(rt; rows.add(0));
    assert!(rt; !rows.add(0));
    let bytes = picture(rt.alloc(), &timeline, "x.asm", &rows)?;
    let text = str::from_utf8(bytes.as_slice())?;
    assert!(rt; elements_of(text).is_ok());
    assert!(rt; text.contains(">core 0</text>") && !text.contains(">core 1</text>"));
    // The arrow of a core that is not drawn has no dot but that of the legend.
    assert_eq!(rt; count_of(text, "<path class='a'"), 2);
    assert_eq!(rt; count_of(text, "<circle"), 1);
    Ok(())
}

#[test]
fn titles_with_marks(rt: HostRuntime) -> Result<(), Fail> {
    let window = Window {
        from: 0,
        to: 9,
        total: 9,
    };
    let timeline = told(rt.alloc(), window)?;
    let title = "<&>'\"\u{1}\u{ffff}\u{e4}.asm";
    let bytes = picture(rt.alloc(), &timeline, title, &Rows::all(2))?;
    let text = str::from_utf8(bytes.as_slice())?;
    assert!(rt; elements_of(text).is_ok());
    assert!(rt; text.contains(">&lt;&amp;&gt;&#39;&#34;??\u{e4}.asm</text>"));
    Ok(())
}

#[test]
fn a_title_that_is_cut(rt: HostRuntime) -> Result<(), Fail> {
    let mut label = Label::new();
    for _ in 0..100 {
        label.push("\"");
    }
    assert_eq!(rt; count_of(label.as_str(), "&#34;"), 60);
    assert!(rt; label.as_str().ends_with(";..."));
    Ok(())
}

#[test]
fn a_run_without_steps(rt: HostRuntime) -> Result<(), Fail> {
    let window = Window {
        from: 0,
        to: 0,
        total: 0,
    };
    let mut timeline = Timeline::new(rt.alloc(), 1, window)?;
    timeline.finish()?;
    let bytes = picture(rt.alloc(), &timeline, "x.asm", &Rows::all(1))?;
    assert!(rt; elements_of(str::from_utf8(bytes.as_slice())?).is_ok());
    Ok(())
}

// A million steps of so many cores, of which every transaction has some four steps, and each third is hit.
fn long_run(alloc: Global, cores: u8) -> Result<Timeline, AllocError> {
    let window = Window {
        from: 0,
        to: 1_000_000,
        total: 1_000_000,
    };
    let mut timeline = Timeline::new(alloc, cores, window)?;
    let mut chance: u32 = 1;
    for _ in 0..1_000_000 {
        chance = chance.wrapping_mul(1_664_525).wrapping_add(1_013_904_223);
        let core = (chance / 65536 % u32::from(cores.max(1))) as u8;
        let draw = chance / 4096 % 12;
        let outcome = if timeline.is_open(core) {
            match draw {
                0 => Outcome::Committed,
                1 => Outcome::Aborted(0x0100_0001),
                2 => Outcome::Aborted(6),
                _ => Outcome::Inside,
            }
        } else if draw < 6 {
            Outcome::Begun
        } else {
            Outcome::Plain
        };
        if outcome == Outcome::Aborted(6) {
            timeline.hit(core, 0, None)?;
        }
        timeline.note(core, outcome)?;
    }
    timeline.finish()?;
    Ok(timeline)
}

#[test]
fn a_long_run_of_few_cores(rt: HostRuntime) -> Result<(), Fail> {
    let timeline = long_run(rt.alloc(), 4)?;
    let bytes = picture(rt.alloc(), &timeline, "x.asm", &Rows::all(4))?;
    assert!(rt; bytes.len() < 500_000);
    let text = str::from_utf8(bytes.as_slice())?;
    assert!(rt; elements_of(text).is_ok());
    assert_eq!(rt; count_of(text, "steps in committed transactions"), 4);
    Ok(())
}

#[test]
fn a_long_run_of_many_cores(rt: HostRuntime) -> Result<(), Fail> {
    let timeline = long_run(rt.alloc(), 64)?;
    let bytes = picture(rt.alloc(), &timeline, "x.asm", &Rows::all(64))?;
    assert!(rt; bytes.len() < 500_000);
    assert!(rt; elements_of(str::from_utf8(bytes.as_slice())?).is_ok());
    Ok(())
}
