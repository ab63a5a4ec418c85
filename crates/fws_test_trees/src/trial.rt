//! What a seed gives, and what is tried of it.

ghost use Rattle.std.specs.Prelude.{◌≡◌, IfOk};

use crate::canvases::canvas_agrees;
use crate::changes::{paint_agrees, pair_agrees, relabel_agrees, restrict_agrees, select_agrees};
use crate::drawing::{draw_rows, draw_sides, draw_tops};
use crate::leaves::{Tag, tag};
use crate::meaning::values_of_rows;
use crate::projecting::exists_agrees;
use crate::random::Random;
use crate::views::{paths_agree, rows_agree, shared_agrees};
use fws_box::Point;
use fws_iv::Ivs;
use fws_num::Memory;
use fws_tree::{Row, Tree, from_rows};
use std::alloc::Global;

/// What is tried.
#[derive(Clone, Copy)]
pub enum Group {
    /// A tree has the leaf of the first row that holds a point.
    Rows,
    /// Each point lies in one path, which has the tree's value.
    Paths,
    /// The nodes lead each point from the last one to its value, and no two of them are equal.
    Shared,
    /// Outside given sides a tree is changed to one leaf.
    Restrict,
    /// Within given sides a tree is changed to one leaf.
    Paint,
    /// A tree is true where another has a value.
    Select,
    /// A tree has what is made of another's leaves.
    Relabel,
    /// A tree has the values of two others.
    Pair,
    /// A tree is true where another is, somewhere in some of the fields.
    Exists,
    /// A canvas has what the rule of each recolouring makes of its values.
    Recolour,
}

/// All that is tried, in order.
pub const GROUPS: [Group; 10] = [
    Group::Rows,
    Group::Paths,
    Group::Shared,
    Group::Restrict,
    Group::Paint,
    Group::Select,
    Group::Relabel,
    Group::Pair,
    Group::Exists,
    Group::Recolour,
];

impl Group {
    /// The name of what is tried.
    pub fn name(self) -> &'static [u8] {
        match self {
            Group::Rows => b"from_rows",
            Group::Paths => b"paths",
            Group::Shared => b"shared",
            Group::Restrict => b"restrict",
            Group::Paint => b"paint",
            Group::Select => b"select",
            Group::Relabel => b"relabel",
            Group::Pair => b"pair",
            Group::Exists => b"exists",
            Group::Recolour => b"recolour",
        }
    }

    /// How many seeds are tried.
    pub fn seeds(self) -> u64 {
        match self {
            Group::Recolour => 200,
            _ => 300,
        }
    }
}

/// Rows, and the leaf of the points that lie in none of them.
#[derive(Drop)]
pub struct Rows {
    /// The rows.
    pub rows: Vec<Row<Tag>>,
    /// The leaf elsewhere.
    pub rest: Tag,
}

impl Rows {
    /// Rows with two to four different leaves.
    fn draw(alloc: Global, random: &mut Random, tops: &Point) -> Result<Rows, Memory> {
        let leaves = 2 + random.below(3);
        let rows = draw_rows(alloc, random, tops, leaves)?;
        let rest = tag(random.below(leaves));
        Ok(Rows { rows, rest })
    }

    /// The tree of the rows.
    pub fn tree(&self, alloc: Global, tops: &Point) -> Result<Tree<Tag>, Memory>
        ensures { IfOk result (λ t. t.0 ≡ tops.now) }
    {
        from_rows(alloc, tops, self.rows.as_slice(), self.rest)
    }

    /// What the rows say of each point within the tops, by the points' numbers.
    pub fn values(&self, alloc: Global, tops: &Point) -> Result<Vec<Tag>, Memory> {
        values_of_rows(alloc, tops, self.rows.as_slice(), self.rest)
    }
}

/// What a seed gives.
#[derive(Drop)]
pub struct Trial {
    /// The seed.
    pub seed: u64,
    /// The greatest value of each field.
    pub tops: Point,
    /// Rows.
    pub rows: Rows,
    /// Other rows.
    pub others: Rows,
    /// The sides of a box.
    pub sides: [Ivs; 12],
    /// A set of fields, by bits.
    pub fields: u16,
}

/// Rows, and other rows.
fn draw_both(alloc: Global, random: &mut Random, tops: &Point) -> Result<(Rows, Rows), Memory> {
    let rows = Rows::draw(alloc, random, tops)?;
    let others = Rows::draw(alloc, random, tops)?;
    Ok((rows, others))
}

impl Trial {
    /// What this seed gives.
    pub fn new(alloc: Global, seed: u64) -> Result<Trial, Memory> {
        let mut random = Random::new(seed);
        let tops = draw_tops(&mut random);
        let (rows, others) = draw_both(alloc, &mut random, &tops)?;
        let sides = draw_sides(alloc, &mut random, &tops)?;
        let fields = random.below(4096) as u16;
        Ok(Trial {
            seed,
            tops,
            rows,
            others,
            sides,
            fields,
        })
    }
}

/// A trial, with the tree of its rows and what these say.
#[derive(Clone, Copy)]
pub struct Given<'a> {
    /// The trial.
    pub trial: &'a Trial,
    /// The tree of its rows.
    pub tree: &'a Tree<Tag>,
    /// What its rows say of each point within the tops, by the points' numbers.
    pub values: &'a [Tag],
}

/// Whether what is tried agrees at what is given.
fn agrees_at(alloc: Global, group: Group, given: &Given) -> Result<bool, Memory>
    requires { given.now.tree.now.0 ≡ given.now.trial.now.tops }
{
    match group {
        Group::Rows => Ok(rows_agree(given)),
        Group::Paths => paths_agree(alloc, given),
        Group::Shared => Ok(shared_agrees(given)),
        Group::Restrict => restrict_agrees(alloc, given),
        Group::Paint => paint_agrees(alloc, given),
        Group::Select => select_agrees(alloc, given),
        Group::Relabel => relabel_agrees(alloc, given),
        Group::Pair => pair_agrees(alloc, given),
        Group::Exists => exists_agrees(alloc, given),
        Group::Recolour => canvas_agrees(alloc, given.trial),
    }
}

/// Whether what is tried agrees at a trial with this tree of its rows.
fn agrees_with(alloc: Global, group: Group, trial: &Trial, tree: &Tree<Tag>) -> Result<bool, Memory>
    requires { tree.now.0 ≡ trial.now.tops }
{
    let values = trial.rows.values(alloc, &trial.tops)?;
    let given = Given {
        trial,
        tree,
        values: values.as_slice(),
    };
    agrees_at(alloc, group, &given)
}

/// Whether what is tried agrees at a trial.
fn agrees_in(alloc: Global, group: Group, trial: &Trial) -> Result<bool, Memory> {
    let tree = trial.rows.tree(alloc, &trial.tops)?;
    agrees_with(alloc, group, trial, &tree)
}

/// Whether what is tried agrees at what a seed gives.
pub fn agrees(alloc: Global, group: Group, seed: u64) -> Result<bool, Memory> {
    let trial = Trial::new(alloc, seed)?;
    agrees_in(alloc, group, &trial)
}
