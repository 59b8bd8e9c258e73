//! Members of an object, each with its name.

ghost use Rattle.std.specs.Prelude.{OnOk, map};
ghost use Rattle.std.specs.Option.{option_copied};
ghost use Rattle.serde_json.specs.Data.{boolean, string};
ghost use Rattle.elide_object.specs.Object.{SendsMember, list_value, number_value, text_list, text_or_null};

use serde::{Serialize, Serializer};

/// Sends a whole number.
pub fn send_number<S: Serializer>(name: &str, number: u64, out: &mut S) -> Result<(), S::Error>
    ensures { OnOk result (SendsMember name.now (number_value number) (S.written out.old) (S.written out.new)) }
{
    out.key(name)?;
    out.u64(number)
}

/// Sends a text.
pub fn send_text<S: Serializer>(name: &str, text: &str, out: &mut S) -> Result<(), S::Error>
    ensures { OnOk result (SendsMember name.now (string text.now) (S.written out.old) (S.written out.new)) }
{
    out.key(name)?;
    out.str(text)
}

/// Sends a text, or null where there is none.
pub fn send_text_or_null<S: Serializer>(
    name: &str,
    text: Option<&str>,
    out: &mut S,
) -> Result<(), S::Error>
    ensures { OnOk result
        (SendsMember name.now (text_or_null (option_copied text.entry)) (S.written out.old) (S.written out.new)) }
{
    out.key(name)?;
    match text {
        Some(text) => out.str(text),
        None => out.unit(),
    }
}

/// Sends what is true or false.
pub fn send_flag<S: Serializer>(name: &str, flag: bool, out: &mut S) -> Result<(), S::Error>
    ensures { OnOk result (SendsMember name.now (boolean flag) (S.written out.old) (S.written out.new)) }
{
    out.key(name)?;
    out.bool(flag)
}

/// Sends a list of texts.
pub fn send_texts<S: Serializer>(name: &str, texts: &[&str], out: &mut S) -> Result<(), S::Error>
    ensures { OnOk result (SendsMember name.now (text_list (map (λ s. s.now) texts.now)) (S.written out.old)
        (S.written out.new)) }
{
    out.key(name)?;
    texts.serialize(out)
}

/// Sends a list of whole numbers.
pub fn send_numbers<S: Serializer>(name: &str, numbers: &[u32], out: &mut S) -> Result<(), S::Error>
    ensures { OnOk result (SendsMember name.now (list_value number_value numbers.now) (S.written out.old)
        (S.written out.new)) }
{
    out.key(name)?;
    numbers.serialize(out)
}
