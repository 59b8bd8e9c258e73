//! Lists of numbers in brackets: [`write_numbers`], `[]` where there is none.
//!
//! Nothing is put around or between lists here. Bytes with their addresses have a shorter form (`stored`).

ghost use Rattle.std.specs.Prelude.{OnOk};
ghost use Rattle.std.specs.List.{flat_map};
ghost use Rattle.text_out.specs.Writing.{Wrote};
ghost use Rattle.page_steps.specs.Numbers.{behind_comma, numbers_inner, numbers_text};

use page_text::write_number;
use text_out::{Out, WriteFault};

/// Writes numbers in brackets, with commas between. On 5 `Write` a beginning of them was written.
pub fn write_numbers<O: Out>(numbers: &[u32], out: &mut O) -> Result<(), WriteFault>
    ensures { OnOk result (Wrote (O.device out.old) (O.device out.new) (numbers_text numbers.now)) }
{
    out.put(b"[")?;
    put_list(numbers, out)?;
    out.put(b"]")?;
    Ok(())
}

// Writes the numbers.
fn put_list<O: Out>(numbers: &[u32], out: &mut O) -> Result<(), WriteFault>
    ensures { OnOk result (Wrote (O.device out.old) (O.device out.new) (numbers_inner numbers.now)) }
{
    let Some((first, rest)) = numbers.split_first() else {
        return Ok(());
    };
    write_number(u64::from(*first), out)?;
    put_more(rest, out)
}

// Writes numbers behind another one.
fn put_more<O: Out>(numbers: &[u32], out: &mut O) -> Result<(), WriteFault>
    ensures { OnOk result (Wrote (O.device out.old) (O.device out.new) (flat_map behind_comma numbers.now)) }
{
    for number in numbers {
        put_behind(*number, out)?;
    }
    Ok(())
}

fn put_behind<O: Out>(number: u32, out: &mut O) -> Result<(), WriteFault>
    ensures { OnOk result (Wrote (O.device out.old) (O.device out.new) (behind_comma number)) }
{
    out.put(b",")?;
    write_number(u64::from(number), out)?;
    Ok(())
}
