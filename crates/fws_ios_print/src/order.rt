//! An order of names, by which the names of placed lists ascend.

ghost use Rattle.std.specs.Prelude.{◌≡◌, []};
ghost use Rattle.fws_ios_print.specs.Order.{names_ascend, precedes, rank};

use fws_ios::IosList;

/// Whether the first text stands ahead of the second one: it has the lesser byte where they first differ, or
/// ends there.
fn precedes(a: &[u8], b: &[u8]) -> bool
    ensures { result ≡ precedes a.now b.now }
{
    let mut left = a;
    let mut right = b;
    while let [d, ds @ ..] = right {
        match left {
            [c, cs @ ..] => {
                if *c < *d {
                    return true;
                }
                if *c != *d {
                    return false;
                }
                left = cs;
                right = ds;
            }
            [] => return true,
        }
    }
    false
}

/// Whether the first name stands ahead of the second one: by their first bytes, then by their lengths, then by
/// all their bytes.
fn stands_ahead(a: &[u8], b: &[u8]) -> bool
    ensures { result ≡ precedes (rank a.now) (rank b.now) }
{
    match (a, b) {
        ([c, ..], [d, ..]) => {
            *c < *d || (*c == *d && (a.len() < b.len() || (a.len() == b.len() && precedes(a, b))))
        }
        ([], [_, ..]) => true,
        (_, []) => false,
    }
}

/// Whether the names of the lists ascend.
pub fn names_ascend(lists: &[IosList]) -> bool
    ensures { result ≡ names_ascend [] lists.now }
{
    let mut left = lists;
    let mut name: &[u8] = b"";
    while let [list, rest @ ..] = left {
        if !stands_ahead(name, list.name.as_slice()) {
            return false;
        }
        name = list.name.as_slice();
        left = rest;
    }
    true
}
