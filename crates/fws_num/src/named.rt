//! Words that stand for values.

ghost use Rattle.std.specs.Prelude.{◌≡◌, map};
ghost use Rattle.fws_num.specs.Named.{named_in};

use crate::compared::is;

/// The value of a name in a table of names and their values: that of its first row. None where no row
/// has the name.
pub fn value_named<T: Copy>(table: &[(&[u8], T)], name: &[u8]) -> Option<T>
    ensures { result ≡ named_in (map (λ row. (row.0.now, row.1)) table.now) name.now }
{
    for row in table {
        if is(name, row.0) {
            return Some(row.1);
        }
    }
    None
}
