//! The text of an outcome.

ghost use Rattle.std.specs.Prelude.{◌≡◌, ◌++◌, OnOk};
ghost use Rattle.fws_table.specs.TableText.{end_rest, end_text, written_text, outcome_text};

use fws_net::{End, Outcome};
use fws_num::{Memory, Text, put_dec, put_quad};

/// Appends how an end goes on behind its address.
fn put_end_rest(out: &mut Text, end: &End) -> Result<(), Memory>
    ensures { OnOk result (out.new ≡ out.old ++ end_rest end.now) }
{
    if end.len < 32 {
        out.put(b"/")?;
        return put_dec(out, u64::from(end.len));
    }
    match end.port {
        None => Ok(()),
        Some(port) => {
            out.put(b":")?;
            put_dec(out, u64::from(port))
        }
    }
}

fn put_end(out: &mut Text, end: &End) -> Result<(), Memory>
    ensures { OnOk result (out.new ≡ out.old ++ end_text end.now) }
{
    put_quad(out, end.addr)?;
    put_end_rest(out, end)
}

/// Appends an end that is written, behind its front.
fn put_written(out: &mut Text, front: &[u8], end: &Option<End>) -> Result<(), Memory>
    ensures { OnOk result (out.new ≡ out.old ++ written_text front.now end.now) }
{
    match end {
        None => Ok(()),
        Some(end) => {
            out.put(front)?;
            put_end(out, end)
        }
    }
}

/// Appends the text of an outcome.
pub(crate) fn put_outcome(out: &mut Text, outcome: &Outcome) -> Result<(), Memory>
    ensures { OnOk result (out.new ≡ out.old ++ outcome_text outcome.now) }
{
    match outcome {
        Outcome::Drop => out.put(b"drop"),
        Outcome::Accept(rewrite) => {
            out.put(b"accept")?;
            put_written(out, b" src=", &rewrite.src)?;
            put_written(out, b" dst=", &rewrite.dst)
        }
    }
}
