//! Access lists as they are printed.

ghost use Rattle.std.specs.Prelude.{◌≡◌, [], ◌∷◌, ◌++◌, codes, OnOk};
ghost use Rattle.fws_num.specs.Written.{ended, spaced};
ghost use Rattle.fws_print.specs.Words.{behind_blanks};
ghost use Rattle.fws_ios_print.specs.PrintedText.{entry_lines, list_lines, list_words};

use crate::entries::put_entries;
use fws_ios::IosList;
use fws_num::{Memory, Text};
use fws_print::put_word;

/// Appends the words that open a list behind the first one.
fn put_extended(out: &mut Text, name: &[u8]) -> Result<(), Memory>
    ensures { OnOk result (out.new ≡ out.old ++ behind_blanks (codes "access-list" ∷ codes "extended" ∷ name.now ∷ [])) }
{
    out.put(b" access-list extended")?;
    put_word(out, name)?;
    Ok(())
}

/// Appends the line that opens a list.
fn put_opening(out: &mut Text, name: &[u8]) -> Result<(), Memory>
    ensures { OnOk result (out.new ≡ out.old ++ ended (spaced (list_words name.now) ∷ [])) }
{
    out.put(b"ip")?;
    put_extended(out, name)?;
    out.put(b"\n")?;
    Ok(())
}

/// Appends the lines of a list.
fn put_list(out: &mut Text, list: &IosList) -> Result<(), Memory>
    ensures { OnOk result (out.new ≡ out.old ++ ended (spaced (list_words list.now.name) ∷ entry_lines list.now.entries)) }
{
    put_opening(out, list.name.as_slice())?;
    put_entries(out, list.entries.as_slice())?;
    Ok(())
}

/// Appends the lines of lists.
pub fn put_lists(out: &mut Text, lists: &[IosList]) -> Result<(), Memory>
    ensures { OnOk result (out.new ≡ out.old ++ ended (list_lines lists.now)) }
{
    for list in lists {
        put_list(out, list)?;
    }
    Ok(())
}
