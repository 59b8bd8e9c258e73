//! How a command's end is told. Takes no memory.
//!
//! [`tell`] writes the line of a fault by one call of the device, or that of a misused option, and gives the exit
//! status whether it was written or not. What is meant comes behind it, by `elide_advice`, which does take memory.

ghost use Rattle.std.specs.Prelude.{◌≡◌, ◌≤◌, ◌+◌, ◌++◌, ◌∷◌, [], ℕ, List, codes, length};
ghost use Rattle.text_out.specs.Writing.{Writes};
ghost use Rattle.elide_color.specs.Painting.{painted};
ghost use Rattle.elide_color.specs.declared.style.Style.TheVariants as style;
ghost use Rattle.elide_command.specs.Telling.{refusal_text};
ghost use Rattle.elide_setup.specs.Faults.{refusal_status};
ghost use Rattle.elide_setup.specs.Told.{fault_back, fault_front};

use elide_color::{Style, push_painted};
use elide_setup::{Fault, Refusal, push_back, push_front, push_name};
use text_out::text_line::TextLine;
use text_out::{Failed, Out};

/// Tells why a command ended, painted or not, and gives its status.
pub fn tell<E: Out>(refusal: Refusal, is_painted: bool, err: &mut E) -> u8
    ensures status { result ≡ refusal_status refusal }
    ensures most { result ≤ 2 }
{
    // A line that is not written whole has no further place to be told.
    let _ = write_refusal(refusal, is_painted, err);
    refusal.status()
}

fn write_refusal<E: Out>(refusal: Refusal, is_painted: bool, err: &mut E) -> Result<(), Failed>
    ensures { (name : List ℕ) × Writes (E.device err.old) (E.device err.new)
        (refusal_text is_painted refusal name) result }
{
    match refusal {
        Refusal::Fault(fault) => write_fault(fault, is_painted, err),
        Refusal::Usage(name) => write_usage(name, is_painted, err),
    }
}

// `fault`, its number, its name, and the line of a text that it is told of.
fn write_fault<E: Out>(fault: Fault, is_painted: bool, err: &mut E) -> Result<(), Failed>
    ensures { (name : List ℕ) × Writes (E.device err.old) (E.device err.new)
        (painted is_painted style.Fault (fault_front fault) ++ name ++ fault_back fault) result }
{
    let mut front = TextLine::new();
    push_front(&mut front, fault);
    let mut line = TextLine::new();
    push_painted(&mut line, is_painted, Style::Fault, front.as_slice());
    push_name(&mut line, fault);
    push_back(&mut line, fault);
    err.put(line.as_slice())
}

fn write_usage<E: Out>(name: &str, is_painted: bool, err: &mut E) -> Result<(), Failed>
    ensures { Writes (E.device err.old) (E.device err.new)
        (painted is_painted style.Fault (codes "usage: ") ++ (name.now ++ 10 ∷ [])) result }
{
    put_front(b"usage: ", is_painted, err)?;
    err.put(name.as_bytes())?;
    err.put(b"\n")
}

// Puts what a line begins with.
fn put_front<E: Out>(front: &[u8], is_painted: bool, err: &mut E) -> Result<(), Failed>
    requires { length front.now + 11 ≤ 160 }
    ensures { Writes (E.device err.old) (E.device err.new) (painted is_painted style.Fault front.now) result }
{
    let mut line = TextLine::new();
    push_painted(&mut line, is_painted, Style::Fault, front);
    err.put(line.as_slice())
}
