//! The command that makes a run of a search again, by its number: for a schedule that is too long for a command line.
//!
//! [`put_hunt`] writes FILE, the machine's options, the checks, how runs are made, where that is not as usual,
//! `--json`, and last `--runs` of this run alone. `--record` and `--page` are left out: the command writes no file.
//! Words are quoted by `elide_shell`; which of the two commands is told is chosen in `replay`.

ghost use Rattle.std.specs.Prelude.{◌≡◌, ◌++◌, OnOk};
ghost use Rattle.std.specs.List.{flat_map};
ghost use Rattle.arrayvec.specs.ArrayVec.{array_vec_len};
ghost use Rattle.text_out.specs.Writing.{Wrote};
ghost use Rattle.elide_hunt.specs.Again.{demand_text, demands_text, flag_text, hunt_command, plan_text, runs_text};
ghost use Rattle.elide_shell.specs.Shell.{shell_word};

use crate::report::HuntLine;
use elide_args::HuntOptions;
use elide_shell::{put_machine, put_option, put_path, put_word};
use text_out::page::{push, push_decimal};
use text_out::{Failed, Out};

/// Writes the command that makes the run of this number again: that of the options, without a record.
pub fn put_hunt<O: Out>(options: &HuntOptions<'_>, run: u32, out: &mut O) -> Result<(), Failed>
    ensures { OnOk result (Wrote (O.device out.old) (O.device out.new) (hunt_command options.now run)) }
{
    out.put(b"elide hunt ")?;
    put_path(options.machine.file, out)?;
    put_machine(&options.machine, out)?;
    put_demands(options, out)?;
    put_plan(options, out)?;
    put_runs(run, out)
}

// Writes the options that say what is checked.
fn put_demands<O: Out>(options: &HuntOptions<'_>, out: &mut O) -> Result<(), Failed>
    ensures { OnOk result (Wrote (O.device out.old) (O.device out.new) (demands_text options.now)) }
{
    put_each(" --check ", options.checks.as_slice(), out)?;
    put_each(" --forbid ", options.forbids.as_slice(), out)?;
    put_each(" --stop ", options.stops.as_slice(), out)?;
    put_flag(b" --expect-halt", options.expects_halt, out)
}

// Writes an option once for each of its values.
fn put_each<O: Out>(name: &str, values: &[&str], out: &mut O) -> Result<(), Failed>
    ensures { OnOk result (Wrote (O.device out.old) (O.device out.new) (flat_map (demand_text name.now) values.now)) }
{
    for value in values {
        put_demand(name, value, out)?;
    }
    Ok(())
}

fn put_demand<O: Out>(name: &str, value: &str, out: &mut O) -> Result<(), Failed>
    ensures { OnOk result (Wrote (O.device out.old) (O.device out.new) (name.now ++ shell_word value.now)) }
{
    out.put(name.as_bytes())?;
    put_word(value, out)
}

// Writes an option that has no value, where it is given.
fn put_flag<O: Out>(name: &[u8], is_given: bool, out: &mut O) -> Result<(), Failed>
    ensures { OnOk result (Wrote (O.device out.old) (O.device out.new) (flag_text name.now is_given)) }
{
    if is_given { out.put(name) } else { Ok(()) }
}

// Writes the options that say how the runs are made, where they are not the usual ones.
fn put_plan<O: Out>(options: &HuntOptions<'_>, out: &mut O) -> Result<(), Failed>
    ensures { OnOk result (Wrote (O.device out.old) (O.device out.new) (plan_text options.now)) }
{
    put_option(" --seed ", options.seed, "1", out)?;
    put_option(" --method ", options.method, "mix", out)?;
    put_option(" --events ", options.events, "", out)?;
    put_option(" --limit ", options.limit, "1000000", out)?;
    put_option(" --jobs ", options.jobs, "", out)?;
    put_flag(b" --json", options.is_json, out)
}

// Writes the option that says this run alone.
fn put_runs<O: Out>(run: u32, out: &mut O) -> Result<(), Failed>
    ensures { OnOk result (Wrote (O.device out.old) (O.device out.new) (runs_text run)) }
{
    let mut line = HuntLine::new();
    push_runs(&mut line, run);
    out.put(line.as_slice())
}

fn push_runs(line: &mut HuntLine, run: u32)
    requires { array_vec_len line.old ≡ 0 }
    ensures { line.new.items ≡ line.old.items ++ runs_text run }
{
    push(line, b" --runs ");
    push_decimal(line, u64::from(run));
    push(line, b"..");
    push_decimal(line, u64::from(run) + 1);
}
