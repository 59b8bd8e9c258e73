//! The options that make a machine.

ghost use Rattle.std.specs.Prelude.{◌++◌, OnOk};
ghost use Rattle.text_out.specs.Writing.{Wrote};
ghost use Rattle.elide_shell.specs.Options.{machine_text, option_text};

use crate::words::put_word;
use elide_args::MachineOptions;
use text_out::{Failed, Out};

/// Writes the options of the machine that are not those by default, each behind a space.
pub fn put_machine<O: Out>(machine: &MachineOptions<'_>, out: &mut O) -> Result<(), Failed>
    ensures { OnOk result (Wrote (O.device out.old) (O.device out.new) (machine_text machine.now)) }
{
    put_option(" --cores ", machine.cores, "1", out)?;
    put_option(" --mem ", machine.memory, "65536", out)?;
    put_option(" --entry ", machine.entry, "", out)?;
    put_option(" --reads ", machine.reads, "512", out)?;
    put_option(" --writes ", machine.writes, "512", out)?;
    put_option(" --store-buffer ", machine.store_buffer, "0", out)
}

/// Writes an option where its value is given, and not the usual one. Its name has the spaces around it.
pub fn put_option<O: Out>(
    name: &str,
    value: Option<&str>,
    usual: &str,
    out: &mut O,
) -> Result<(), Failed>
    ensures { OnOk result (Wrote (O.device out.old) (O.device out.new) (option_text name.now usual.now value.entry)) }
{
    match value {
        Some(value) if value != usual => {
            out.put(name.as_bytes())?;
            put_word(value, out)
        }
        _ => Ok(()),
    }
}
