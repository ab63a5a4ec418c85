//! Trees that were worked out by hand.

use crate::agreeing::has_values;
use crate::leaves::{Tag, tag};
use crate::tally::Tally;
use fws_box::{Point, whole_sides};
use fws_iv::{Ivs, one};
use fws_num::Memory;
use fws_tree::{Row, Tree, from_rows};
use std::alloc::Global;

/// A row over two fields: from the first to the last value of each, none where the last is less; and a letter.
struct Drawn {
    x: (u32, u32),
    y: (u32, u32),
    letter: u8,
}

/// Rows, the letters that they give, how many nodes and how many paths their tree has. The letters stand in three groups
/// for the values 0 to 2 of the second field, each from value 0 to 4 of the first; a dot is no row.
struct Case {
    rows: &'static [Drawn],
    letters: &'static [u8],
    nodes: usize,
    paths: usize,
}

/// The greatest values: five values of one field, three of another.
const TOPS: Point = [0, 0, 0, 0, 4, 2, 0, 0, 0, 0, 0, 0];

/// All values.
const ALL: (u32, u32) = (0, 9);

const CASES: [Case; 15] = [
    // no row
    Case {
        rows: &[],
        letters: b"..... ..... .....",
        nodes: 1,
        paths: 1,
    },
    // one row that holds every point
    Case {
        rows: &[Drawn {
            x: ALL,
            y: ALL,
            letter: b'a',
        }],
        letters: b"aaaaa aaaaa aaaaa",
        nodes: 1,
        paths: 1,
    },
    // values within a range
    Case {
        rows: &[Drawn {
            x: (1, 2),
            y: ALL,
            letter: b'a',
        }],
        letters: b".aa.. .aa.. .aa..",
        nodes: 3,
        paths: 2,
    },
    // a row that hides another
    Case {
        rows: &[
            Drawn {
                x: ALL,
                y: ALL,
                letter: b'a',
            },
            Drawn {
                x: (1, 1),
                y: ALL,
                letter: b'b',
            },
        ],
        letters: b"aaaaa aaaaa aaaaa",
        nodes: 1,
        paths: 1,
    },
    // a row that shows on both sides of another
    Case {
        rows: &[
            Drawn {
                x: (1, 2),
                y: ALL,
                letter: b'a',
            },
            Drawn {
                x: ALL,
                y: ALL,
                letter: b'b',
            },
        ],
        letters: b"baabb baabb baabb",
        nodes: 3,
        paths: 2,
    },
    // cut at the least value
    Case {
        rows: &[Drawn {
            x: (0, 0),
            y: ALL,
            letter: b'a',
        }],
        letters: b"a.... a.... a....",
        nodes: 3,
        paths: 2,
    },
    // cut at the top
    Case {
        rows: &[Drawn {
            x: (4, 4),
            y: ALL,
            letter: b'a',
        }],
        letters: b"....a ....a ....a",
        nodes: 3,
        paths: 2,
    },
    // past the top
    Case {
        rows: &[Drawn {
            x: (3, 9),
            y: ALL,
            letter: b'a',
        }],
        letters: b"...aa ...aa ...aa",
        nodes: 3,
        paths: 2,
    },
    // behind the top alone
    Case {
        rows: &[Drawn {
            x: (5, 9),
            y: ALL,
            letter: b'a',
        }],
        letters: b"..... ..... .....",
        nodes: 1,
        paths: 1,
    },
    // an empty side
    Case {
        rows: &[Drawn {
            x: (3, 2),
            y: ALL,
            letter: b'a',
        }],
        letters: b"..... ..... .....",
        nodes: 1,
        paths: 1,
    },
    // equal leaves side by side
    Case {
        rows: &[
            Drawn {
                x: (0, 1),
                y: ALL,
                letter: b'a',
            },
            Drawn {
                x: (2, 4),
                y: ALL,
                letter: b'a',
            },
        ],
        letters: b"aaaaa aaaaa aaaaa",
        nodes: 1,
        paths: 1,
    },
    // equal subtrees are one
    Case {
        rows: &[
            Drawn {
                x: (0, 0),
                y: (1, 1),
                letter: b'a',
            },
            Drawn {
                x: (4, 4),
                y: (1, 1),
                letter: b'a',
            },
        ],
        letters: b"..... a...a .....",
        nodes: 4,
        paths: 3,
    },
    // a cut of the second field alone
    Case {
        rows: &[Drawn {
            x: ALL,
            y: (1, 1),
            letter: b'a',
        }],
        letters: b"..... aaaaa .....",
        nodes: 3,
        paths: 2,
    },
    // a row with the leaf of no row
    Case {
        rows: &[
            Drawn {
                x: (2, 2),
                y: ALL,
                letter: b'.',
            },
            Drawn {
                x: (1, 3),
                y: ALL,
                letter: b'a',
            },
        ],
        letters: b".a.a. .a.a. .a.a.",
        nodes: 3,
        paths: 2,
    },
    // subtrees that differ
    Case {
        rows: &[
            Drawn {
                x: (0, 0),
                y: (0, 0),
                letter: b'a',
            },
            Drawn {
                x: (1, 1),
                y: (1, 1),
                letter: b'b',
            },
        ],
        letters: b"a.... .b... .....",
        nodes: 6,
        paths: 5,
    },
];

/// The leaf of a letter.
fn leaf_of(letter: u8) -> Tag {
    tag(match letter {
        b'a' => 1,
        b'b' => 2,
        _ => 0,
    })
}

/// The values from the first to the last; none where the last is less.
fn side_of(alloc: Global, ends: (u32, u32)) -> Result<Ivs, Memory> {
    if ends.0 > ends.1 {
        return Ok(Ivs::none(alloc));
    }
    one(alloc, ends.0, ends.1)
}

/// Sets the sides of both fields.
fn set_sides(alloc: Global, sides: &mut [Ivs; 12], drawn: &Drawn) -> Result<(), Memory> {
    sides[4] = side_of(alloc, drawn.x)?;
    sides[5] = side_of(alloc, drawn.y)?;
    Ok(())
}

/// A row over two fields as a row over all.
fn row_of(alloc: Global, drawn: &Drawn) -> Result<Row<Tag>, Memory> {
    let mut sides = whole_sides(alloc, &TOPS)?;
    set_sides(alloc, &mut sides, drawn)?;
    Ok(Row {
        sides,
        leaf: leaf_of(drawn.letter),
    })
}

/// The rows of a case.
fn rows_of(alloc: Global, drawn: &[Drawn]) -> Result<Vec<Row<Tag>>, Memory> {
    let mut rows = Vec::new(alloc);
    for row in drawn {
        rows.push(row_of(alloc, row)?)?;
    }
    Ok(rows)
}

/// The leaves of letters, but for blanks.
fn leaves_of(alloc: Global, letters: &[u8]) -> Result<Vec<Tag>, Memory> {
    let mut leaves = Vec::new(alloc);
    for letter in letters {
        if *letter != b' ' {
            leaves.push(leaf_of(*letter))?;
        }
    }
    Ok(leaves)
}

/// Whether a tree has so many paths.
fn has_paths(alloc: Global, tree: &Tree<Tag>, count: usize) -> Result<bool, Memory> {
    let paths = tree.paths(alloc)?;
    Ok(paths.len() == count)
}

/// Whether a tree has the leaves of letters.
fn has_letters(alloc: Global, tree: &Tree<Tag>, letters: &[u8]) -> Result<bool, Memory> {
    let leaves = leaves_of(alloc, letters)?;
    Ok(has_values(tree, &TOPS, leaves.as_slice()))
}

/// Whether a tree is as that of the case was worked out.
fn is_as_worked_out(alloc: Global, tree: &Tree<Tag>, case: &Case) -> Result<bool, Memory> {
    Ok(
        has_letters(alloc, tree, case.letters)?
            && tree.nodes() == case.nodes
            && has_paths(alloc, tree, case.paths)?,
    )
}

/// Whether the tree of rows is as that of the case was worked out.
fn agrees_by(alloc: Global, rows: &[Row<Tag>], case: &Case) -> Result<bool, Memory> {
    let tree = from_rows(alloc, &TOPS, rows, leaf_of(b'.'))?;
    is_as_worked_out(alloc, &tree, case)
}

/// Whether the tree of a case is as it was worked out.
fn agrees(alloc: Global, case: &Case) -> Result<bool, Memory> {
    let rows = rows_of(alloc, case.rows)?;
    agrees_by(alloc, rows.as_slice(), case)
}

/// Tries the trees.
pub fn try_by_hand(alloc: Global) -> Result<Tally, Memory> {
    let mut tally = Tally::new();
    for case in &CASES {
        tally.count(agrees(alloc, case)?);
    }
    Ok(tally)
}
