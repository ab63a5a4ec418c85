//! Rows as marks.

ghost use Rattle.std.specs.Prelude.{◌≡◌, ◌+◌, length, map, IfOk};
ghost use Rattle.fws_tree.specs.Marks.{sides_of};

use crate::mark::Mark;
use crate::row::Row;
use fws_num::Memory;
use std::alloc::Global;

/// The marks of rows: the label of each is one more than its number. Fails if memory runs out.
pub(crate) fn marks_of_rows<'a, L>(
    alloc: Global,
    rows: &'a [Row<L>],
    numbers: &[u32],
) -> Result<Vec<Mark<'a>>, Memory>
    requires { length numbers.now ≡ length rows.now }
    ensures sides { IfOk result (λ ms. map sides_of ms.items ≡ map (λ r. r.sides) rows.now) }
    ensures labels { IfOk result (λ ms. map (λ m. m.label) ms.items ≡ map (λ n. n + 1) numbers.now) }
{
    let mut marks = Vec::new(alloc);
    for (i, row) in rows.iter().enumerate() {
        let Some(label) = numbers[i].checked_add(1) else {
            return Err(Memory);
        };
        marks.push(Mark::of_sets(&row.sides, label))?;
    }
    Ok(marks)
}
