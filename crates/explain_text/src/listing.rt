// Lists of names, and names with a dot between them.

ghost use Rattle.std.specs.Prelude.{◌≡◌, ◌++◌, map, OnOk};
ghost use Rattle.answer_text.specs.Columns.{escaped};
ghost use Rattle.answer_text.specs.Errors.{listed};
ghost use Rattle.explain_text.specs.Words.{names_text, dotted};

use answer_text::{push_all, push_escaped};
use sp_value::{Memory, Text};

/// Appends names with a comma and a space between two of them.
fn push_listed(text: &mut Vec<u8>, names: &[Text]) -> Result<(), Memory>
    ensures { OnOk result (text.new.items ≡ text.old.items ++ listed (map escaped names.now)) }
{
    let mut rest = names;
    'more: while let [name, others @ ..] = rest {
        push_escaped(text, name.as_bytes())?;
        if !others.is_empty() {
            push_all(text, b", ")?;
        }
        rest = others;
    }
    Ok(())
}

/// Appends names, or that there are none.
pub(crate) fn push_names(text: &mut Vec<u8>, names: &[Text]) -> Result<(), Memory>
    ensures { OnOk result (text.new.items ≡ text.old.items ++ names_text names.now) }
{
    if names.is_empty() {
        push_all(text, b"none")
    } else {
        push_listed(text, names)
    }
}

/// Appends two names with a dot between them.
pub(crate) fn push_dotted(text: &mut Vec<u8>, first: &Text, second: &Text) -> Result<(), Memory>
    ensures { OnOk result (text.new.items ≡ text.old.items ++ dotted first.now second.now) }
{
    push_escaped(text, first.as_bytes())?;
    push_all(text, b".")?;
    push_escaped(text, second.as_bytes())
}
