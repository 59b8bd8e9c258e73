//! Schedules as texts: what is written, what is read, and what is refused.

use text_out::{ToVec, WriteFault};
use tm_model::{Event, Interference, Pick};
use tm_schedule::{
    ScheduleFault, ScheduleWriter, pick_of_word, read_schedule, read_steps, write_schedule,
};

fn plain(core: u8) -> Pick {
    Pick { core, event: None }
}

fn under(core: u8, interference: Interference) -> Pick {
    Pick {
        core,
        event: Some(Event::Abort(interference)),
    }
}

fn drain(core: u8) -> Pick {
    Pick {
        core,
        event: Some(Event::Drain),
    }
}

#[test]
fn steps_are_written(rt: HostRuntime) -> Result<(), WriteFault> {
    let mut out = ToVec::new(Vec::new(rt.alloc()));
    write_schedule(&[plain(200); 33], &mut out)?;
    assert_eq!(rt; out.bytes.as_slice(), b"schedule 2\n200*33\n".as_slice());
    Ok(())
}

#[test]
fn steps_under_events_are_written(rt: HostRuntime) -> Result<(), WriteFault> {
    let picks = [
        under(0, Interference::Interrupt),
        under(0, Interference::Interrupt),
        plain(0),
        under(100, Interference::Eviction),
        under(100, Interference::Snoop),
        plain(100),
        plain(100),
    ];
    let mut out = ToVec::new(Vec::new(rt.alloc()));
    write_schedule(&picks, &mut out)?;
    let text = b"schedule 3\n0i*2 0 100e 100s 100*2\n";
    assert_eq!(rt; out.bytes.as_slice(), text.as_slice());
    Ok(())
}

// Drains are of the third form, as aborts are.
#[test]
fn drains_are_written(rt: HostRuntime) -> Result<(), WriteFault> {
    let picks = [
        plain(0),
        drain(0),
        drain(0),
        under(0, Interference::Snoop),
        drain(255),
    ];
    let mut out = ToVec::new(Vec::new(rt.alloc()));
    write_schedule(&picks, &mut out)?;
    let text = b"schedule 3\n0 0d*2 0s 255d\n";
    assert_eq!(rt; out.bytes.as_slice(), text.as_slice());
    Ok(())
}

#[test]
fn steps_are_written_as_they_come(rt: HostRuntime) -> Result<(), WriteFault> {
    let mut out = ToVec::new(Vec::new(rt.alloc()));
    let mut writer = ScheduleWriter::begin(true, &mut out)?;
    for core in [7, 7, 200] {
        writer.add(plain(core), &mut out)?;
    }
    writer.finish(&mut out)?;
    assert_eq!(rt; out.bytes.as_slice(), b"schedule 3\n7*2 200\n".as_slice());
    Ok(())
}

// Cores above 63, and lines that end in both ways.
#[test]
fn steps_are_read(rt: HostRuntime) -> Result<(), ScheduleFault> {
    let read = read_schedule(rt.alloc(), b"schedule 1\r\n\r\n 7  007\r\n255 ")?;
    assert_eq!(rt;
        read.as_slice(),
        [plain(7), plain(7), plain(255)].as_slice()
    );
    let runs = read_schedule(rt.alloc(), b"schedule 2\r\n\r\n 02*003  255\r\n3*00000001 ")?;
    let listed = [plain(2), plain(2), plain(2), plain(255), plain(3)];
    assert_eq!(rt; runs.as_slice(), listed.as_slice());
    let back = read_schedule(rt.alloc(), b"schedule 2\n200*33\n")?;
    assert_eq!(rt; back.as_slice(), [plain(200); 33].as_slice());
    Ok(())
}

#[test]
fn steps_under_events_are_read(rt: HostRuntime) -> Result<(), ScheduleFault> {
    let runs = read_schedule(
        rt.alloc(),
        b"schedule 3\r\n\r\n 02i*002  255s\r\n3*00000001 0e ",
    )?;
    let listed = [
        under(2, Interference::Interrupt),
        under(2, Interference::Interrupt),
        under(255, Interference::Snoop),
        plain(3),
        under(0, Interference::Eviction),
    ];
    assert_eq!(rt; runs.as_slice(), listed.as_slice());
    let steps = read_steps(rt.alloc(), b"0 2i\n015s")?;
    let listed = [
        plain(0),
        under(2, Interference::Interrupt),
        under(15, Interference::Snoop),
    ];
    assert_eq!(rt; steps.as_slice(), listed.as_slice());
    assert_eq!(rt; pick_of_word(b"9e"), Some(under(9, Interference::Eviction)));
    assert_eq!(rt; pick_of_word(b"i"), None);
    Ok(())
}

#[test]
fn drains_are_read(rt: HostRuntime) -> Result<(), ScheduleFault> {
    let runs = read_schedule(rt.alloc(), b"schedule 3\n0 0d*2 255d\n")?;
    let listed = [plain(0), drain(0), drain(0), drain(255)];
    assert_eq!(rt; runs.as_slice(), listed.as_slice());
    let steps = read_steps(rt.alloc(), b"0d 015d")?;
    assert_eq!(rt; steps.as_slice(), [drain(0), drain(15)].as_slice());
    assert_eq!(rt; pick_of_word(b"9d"), Some(drain(9)));
    assert_eq!(rt; pick_of_word(b"d"), None);
    assert_eq!(rt; pick_of_word(b"9D"), None);
    Ok(())
}

// No event stands in the first two forms, and no other letter in the third.
#[test]
fn no_steps(rt: HostRuntime) {
    // Each with the line that breaks the form.
    let refused = [
        (b"schedule 1\n0i\n".as_slice(), 2),
        (b"schedule 2\n0\n0i*2\n".as_slice(), 3),
        (b"schedule 2\n0\n0d\n".as_slice(), 3),
        (b"schedule 3\n0d\n0x\n".as_slice(), 3),
        (b"schedule 3\n0id\n".as_slice(), 2),
        (b"schedule 3\n0ii\n".as_slice(), 2),
        (b"schedule 3\n0*2i\n".as_slice(), 2),
        (b"schedule 3\n256s\n".as_slice(), 2),
        (b"schedule 4\n0\n".as_slice(), 1),
    ];
    for (text, line) in &refused {
        match read_schedule(rt.alloc(), text) {
            Ok(_picks) => assert!(rt; false, "a text that breaks the form is read"),
            Err(told) => assert_eq!(rt; told, ScheduleFault::BadSchedule(*line)),
        }
    }
}

#[test]
fn too_many_steps(rt: HostRuntime) {
    let text = b"schedule 3\n0i*16777216\n0\n".as_slice();
    match read_schedule(rt.alloc(), text) {
        Ok(_picks) => assert!(rt; false, "one step too many is read"),
        Err(told) => assert_eq!(rt; told, ScheduleFault::TooManySteps(3)),
    }
}

#[test]
fn no_run_in_a_list(rt: HostRuntime) {
    match read_steps(rt.alloc(), b"0i*2") {
        Ok(_picks) => assert!(rt; false, "a run is read in a list of steps"),
        Err(told) => assert_eq!(rt; told, ScheduleFault::BadSchedule(1)),
    }
}
