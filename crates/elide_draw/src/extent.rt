//! What is drawn of a run: its steps from `--from` to `--to`, and the cores of `--core`.
//!
//! [`rows_of`] comes before FILE is read, and refuses what is no number or no core. [`window_of`] comes when the steps
//! are counted, and refuses what [`Extent`] does.

ghost use Rattle.std.specs.Prelude.{IfOk};
ghost use Rattle.elide_draw.specs.Extents.{IsWindow};

use elide_program::number_of;
use elide_setup::{Extent, Refusal};
use tm_timeline::{Rows, Window};

/// The steps of a run of this length that are asked for: those that are there, where more are.
pub fn window_of(extent: &Extent, total: u32) -> Result<Window, Refusal>
    ensures { IfOk result (IsWindow extent.now.from extent.now.to total) }
{
    let from = extent.before(total as u64)?;
    let to = extent.last(from, total as u64)?;
    Ok(Window {
        from: from as u32,
        to: to as u32,
        total,
    })
}

/// The cores that `--core` lists of so many, each once, in this order; all, where it is not given.
pub fn rows_of(list: Option<&str>, cores: u32) -> Result<Rows, Refusal> {
    // More cores than a machine can have are refused where it is made.
    let cores = cores.min(64) as u8;
    let Some(list) = list else {
        return Ok(Rows::all(cores));
    };
    let mut rows = Rows::new();
    for word in list.split(',') {
        let core = number_of(Some(word), "--core")?;
        if core >= u32::from(cores) || !rows.add(core as u8) {
            return Err(Refusal::Usage("--core"));
        }
    }
    Ok(rows)
}
