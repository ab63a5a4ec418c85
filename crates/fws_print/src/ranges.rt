//! Ports as single numbers and ranges.

ghost use Rattle.std.specs.Prelude.{◌≡◌, ◌∷◌, ◌++◌, [], OnOk};
ghost use Rattle.fws_print.specs.Words.{range_text, ranges_text};

use fws_iv::Iv;
use fws_num::{Memory, Text, put_dec};

/// Appends a port, or two with a mark between.
pub fn put_range(out: &mut Text, mark: u8, iv: Iv) -> Result<(), Memory>
    ensures { OnOk result (out.new ≡ out.old ++ range_text mark iv) }
{
    put_dec(out, u64::from(iv.lo))?;
    if iv.lo != iv.hi {
        out.put(&[mark])?;
        put_dec(out, u64::from(iv.hi))?;
    }
    Ok(())
}

/// Appends the ranges, each with this mark, joined by commas.
pub fn put_ranges(out: &mut Text, mark: u8, parts: &[Iv]) -> Result<(), Memory>
    ensures { OnOk result (out.new ≡ out.old ++ ranges_text mark parts.now) }
{
    if let [first, rest @ ..] = parts {
        put_range(out, mark, *first)?;
        for iv in rest {
            out.put(b",")?;
            put_range(out, mark, *iv)?;
        }
    }
    Ok(())
}
