//! The fields of a point.

ghost use Rattle.std.specs.Prelude.{◌≡◌, ◌<◌, slice_get, Some};
ghost use Rattle.fws_table.specs.TableText.{field_kinds};

/// How the values of a field are spelled.
#[derive(Clone, Copy, Debug, PartialEq, Eq)]
pub enum Kind {
    /// The name of an entry.
    Entry,
    /// A decimal.
    Number,
    /// Four decimals joined by dots.
    Address,
}

/// How the values of a field are spelled, by the number of the field from 0 to 11.
pub(crate) fn kind_of(field: usize) -> Kind
    requires { field < 12 }
    ensures { slice_get field_kinds field ≡ Some result }
{
    match field {
        0 => Kind::Entry,
        2 | 4 | 8 | 10 => Kind::Address,
        _ => Kind::Number,
    }
}
