//! A schedule as a list of words.

ghost use Rattle.std.specs.Prelude.{OnOk};
ghost use Rattle.serde_json.specs.Data.{string};
ghost use Rattle.serde_json.specs.Events.{SendsValue};
ghost use Rattle.tm_schedule.specs.Picks.{pick_word};
ghost use Rattle.elide_object.specs.Object.{SendsMember, schedule_value};

use elide_shell::step_word;
use serde::Serializer;
use tm_model::Pick;

/// Sends a member that is a schedule: the list of the words of its steps, as `--steps` takes them.
pub fn send_schedule<S: Serializer>(name: &str, picks: &[Pick], out: &mut S) -> Result<(), S::Error>
    ensures { OnOk result (SendsMember name.now (schedule_value picks.now) (S.written out.old) (S.written out.new)) }
{
    out.key(name)?;
    send_words(picks, out)
}

fn send_words<S: Serializer>(picks: &[Pick], out: &mut S) -> Result<(), S::Error>
    ensures { OnOk result (SendsValue (schedule_value picks.now) (S.written out.old) (S.written out.new)) }
{
    out.begin_seq(Some(picks.len()))?;
    for pick in picks {
        send_word(*pick, out)?;
    }
    out.end_seq()
}

fn send_word<S: Serializer>(pick: Pick, out: &mut S) -> Result<(), S::Error>
    ensures { OnOk result (SendsValue (string (pick_word pick)) (S.written out.old) (S.written out.new)) }
{
    out.str(step_word(pick).as_str())
}
