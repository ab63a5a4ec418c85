//! When the numbers in flat code are right.

ghost use Rattle.std.specs.Prelude.{◌≡◌, ℕ, ◌&&◌};
ghost use Rattle.std.specs.List.{list_all};
ghost use Rattle.fws_flat.specs.Soundness.{act_ok, code_ok, part_ok, flat_ok};
ghost use Rattle.fws_flat.specs.Walk.{part_code};

use crate::code::{Flat, FlatAct, Ins, Part};

/// The instructions of a part.
pub(crate) fn part_code<'a>(code: &'a [Ins], part: &Part) -> &'a [Ins]
    ensures { result.now ≡ part_code code.now part.now }
{
    let first = part.first as usize;
    let past = code.len().min(part.past as usize);
    if past <= first {
        return &[];
    }
    &code[first..past]
}

/// Whether the act of the instruction at place `at` jumps forward, to at most the place `past`, if it
/// jumps.
fn act_ok(past: u32, at: usize, act: FlatAct) -> bool
    ensures { result ≡ act_ok past at act }
{
    match act {
        FlatAct::Jump(to) => at < to as usize && to <= past,
        _ => true,
    }
}

/// Whether the instructions are right, of which the first has the place `first`.
fn code_ok(past: u32, first: u32, code: &[Ins]) -> bool
    ensures { result ≡ code_ok past first code.now }
{
    for (k, ins) in code.iter().enumerate() {
        if !act_ok(past, first as usize + k, ins.act) {
            return false;
        }
    }
    true
}

/// Whether the part lies in the code, and its jumps go forward, to at most its end.
fn part_ok(code: &[Ins], part: &Part) -> bool
    ensures { result ≡ part_ok code.now part.now }
{
    part.first <= part.past
        && part.past as usize <= code.len()
        && code_ok(part.past, part.first, part_code(code, part))
}

/// Whether each of the parts is right.
fn parts_ok(code: &[Ins], parts: &[Part]) -> bool
    ensures { result ≡ list_all (part_ok code.now) parts.now }
{
    parts.iter().all(|part| part_ok(code, part))
}

/// Whether every part lies in the code, and its jumps go forward, to at most its end.
pub fn flat_ok(f: &Flat) -> bool
    ensures { result ≡ flat_ok f.now }
{
    let code = f.code.as_slice();
    parts_ok(code, f.arrive.as_slice())
        && parts_ok(code, f.deliver.as_slice())
        && parts_ok(code, f.forward.as_slice())
        && parts_ok(code, f.send.as_slice())
}
