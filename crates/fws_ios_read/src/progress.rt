//! What was read of a text.

ghost use Rattle.std.specs.Prelude.{◌≡◌, ◌∷◌, ◌++◌, [], not, true, false, nat_eq, filter, Ok, IfOk, OnOk, if◌then◌else◌};
ghost use Rattle.fws_net.specs.Reading.{StepGiven, and_then};
ghost use Rattle.fws_ios.specs.FileText.{alone, block_line, ended, entry_line, fresh_text, has_pool, in_block, is_elsewhere, with_group, with_mark, with_marked, with_nat, with_pool};

use crate::groups::face_line;
use crate::lists::{Lists, entry_line};
use fws_ios::{Block, IosConfig, IosGroup, IosList, IosNat, Marked};
use fws_iv::Ivs;
use fws_net::{Cause, ReadFault};
use fws_num::{Items, Memory, Text, Word};
use indexmap::IndexSet;
use std::alloc::Global;
use std::marker::Model;
use std::mem;

/// What was read of a text. Contracts see the draft.
#[derive(Drop)]
pub(crate) struct Progress {
    block: Block,
    lists: Lists,
    groups: Vec<IosGroup>,
    marks: Vec<Marked>,
    pools: IndexSet<Text>,
    nats: Items<IosNat>,
}

impl Model for Progress {
    ghost use Rattle.fws_ios.specs.declared.draft.IosDraft.{IosDraft};

    ghost Value = { IosDraft };

    ghost view = { λ p. record {
      block = p.block;
      lists = p.lists;
      groups = p.groups.items;
      marks = p.marks.items;
      pools = p.pools.keys;
      nats = p.nats;
    } };
}

/// Whether a list is applied at another interface than this one, or in the other direction.
fn is_elsewhere(face: u8, outward: bool, group: &IosGroup) -> bool
    ensures { result ≡ is_elsewhere face outward group.now }
{
    group.face != face
        || (if outward {
            !group.outward
        } else {
            group.outward
        })
}

/// Puts a list that is applied behind the others, of which it takes the place of one.
fn put_group(groups: &mut Vec<IosGroup>, group: IosGroup) -> Result<(), Memory>
    ensures { OnOk result (groups.new.items ≡ filter (is_elsewhere group.face group.outward) groups.old.items ++ group ∷ []) }
{
    let face = group.face;
    let outward = group.outward;
    groups.retain(|other| is_elsewhere(face, outward, other));
    groups.push(group)?;
    Ok(())
}

/// Puts an interface on a side behind the others, of which it takes the place of one.
fn put_mark(marks: &mut Vec<Marked>, mark: Marked) -> Result<(), Memory>
    ensures { OnOk result (marks.new.items ≡ filter (λ other. not (nat_eq other.face mark.face)) marks.old.items ++ mark ∷ []) }
{
    marks.retain(|other| other.face != mark.face);
    marks.push(mark)?;
    Ok(())
}

/// Whether an interface is on this side.
fn is_on(outside: bool, mark: Marked) -> bool
    ensures { result ≡ (if outside then mark.outside else not mark.outside) }
{
    if outside { mark.outside } else { !mark.outside }
}

/// The interfaces of a side.
fn marked(alloc: Global, outside: bool, marks: &[Marked]) -> Result<Ivs, Memory>
    ensures { IfOk result (λ s. s ≡ with_marked outside [] marks.now) }
{
    let mut set = Ivs::none(alloc);
    for mark in marks {
        if is_on(outside, *mark) {
            let entry = u32::from(mark.face);
            set = set.with_range(alloc, entry, entry)?;
        }
    }
    Ok(set)
}

/// The interfaces on the inside, and those on the outside.
fn sides(alloc: Global, marks: &[Marked]) -> Result<(Ivs, Ivs), Memory>
    ensures { IfOk result (λ s. s ≡ (with_marked false [] marks.now, with_marked true [] marks.now)) }
{
    let inside = marked(alloc, false, marks)?;
    let outside = marked(alloc, true, marks)?;
    Ok((inside, outside))
}

impl Progress {
    /// What was read ahead of the first line.
    pub(crate) fn new(alloc: Global) -> Progress
        ensures { result ≡ fresh_text }
    {
        Progress {
            block: Block::Other,
            lists: Lists::new(alloc),
            groups: Vec::new(alloc),
            marks: Vec::new(alloc),
            pools: IndexSet::new(alloc),
            nats: Items::new(alloc),
        }
    }

    /// From here on lines that begin with a blank belong to this.
    pub(crate) fn open(&mut self, block: Block)
        ensures { self.new ≡ in_block block self.old }
    {
        self.block = block;
    }

    /// Takes the words of an entry of the list of this name, which is extended or not, and was opened or has a number; or of a remark.
    pub(crate) fn take_entry(
        &mut self,
        alloc: Global,
        name: &Text,
        extended: bool,
        opened: bool,
        words: &[Word],
    ) -> Result<(), ReadFault>
        ensures { StepGiven result self.new (entry_line name.now extended opened words.now self.old) }
    {
        entry_line(alloc, &mut self.lists, name, extended, opened, words)
    }

    /// Takes the words of a line that begins with a blank, by what it belongs to.
    pub(crate) fn take_indented(&mut self, alloc: Global, words: &[Word]) -> Result<(), ReadFault>
        ensures { StepGiven result self.new (block_line self.old.block words.now self.old) }
    {
        match &self.block {
            Block::Other => Ok(()),
            Block::Interface(face) => {
                let face = *face;
                face_line(alloc, face, words, self)
            }
            Block::List(name, extended) => entry_line(
                alloc,
                &mut self.lists,
                name,
                *extended,
                true,
                words,
            ),
        }
    }

    /// Puts a list that is applied behind the others, of which it takes the place of one.
    pub(crate) fn put_group(&mut self, group: IosGroup) -> Result<(), Memory>
        ensures { OnOk result (self.new ≡ with_group group self.old) }
    {
        put_group(&mut self.groups, group)?;
        Ok(())
    }

    /// Puts an interface on a side behind the others, of which it takes the place of one.
    pub(crate) fn put_mark(&mut self, mark: Marked) -> Result<(), Memory>
        ensures { OnOk result (self.new ≡ with_mark mark self.old) }
    {
        put_mark(&mut self.marks, mark)?;
        Ok(())
    }

    /// Whether a pool has this name.
    pub(crate) fn has_pool(&self, name: &Text) -> bool
        ensures { result ≡ has_pool self.now.pools name.now }
    {
        self.pools.contains(name)
    }

    /// Notes the name of a pool, which no other has.
    pub(crate) fn put_pool(&mut self, name: Text) -> Result<(), Memory>
        requires { has_pool self.old.pools name ≡ false }
        ensures { OnOk result (self.new ≡ with_pool name self.old) }
    {
        self.pools.insert(name)?;
        Ok(())
    }

    /// Puts a translation behind the others.
    pub(crate) fn put_nat(&mut self, nat: IosNat) -> Result<(), Memory>
        ensures { OnOk result (self.new ≡ with_nat nat self.old) }
    {
        self.nats.put(nat)?;
        Ok(())
    }

    /// The configuration of these lists and of the rest that was read, which it takes along.
    fn config_of(&mut self, alloc: Global, lists: Items<IosList>) -> Result<IosConfig, Memory>
        ensures { IfOk result (λ c. ended (record self.old { lists = lists }) ≡ Ok c) }
    {
        let (inside, outside) = sides(alloc, self.marks.as_slice())?;
        Ok(IosConfig {
            lists,
            groups: Items::from_vec(mem::replace(&mut self.groups, Vec::new(alloc))),
            inside,
            outside,
            nats: mem::replace(&mut self.nats, Items::new(alloc)),
        })
    }

    /// The configuration of what was read, which it takes along.
    fn drawn(&mut self, alloc: Global) -> Result<IosConfig, Memory>
        ensures { IfOk result (λ c. ended self.old ≡ Ok c) }
    {
        let lists = mem::replace(&mut self.lists, Lists::new(alloc));
        self.config_of(alloc, lists.into_items(alloc)?)
    }

    /// The configuration of what was read.
    pub(crate) fn into_config(self, alloc: Global) -> Result<IosConfig, Memory>
        ensures { IfOk result (λ c. ended self ≡ Ok c) }
    {
        let mut progress = self;
        progress.drawn(alloc)
    }
}

/// Opens what lines belong to from here on that begin with a blank, if no word stands behind it.
pub(crate) fn open_alone(
    block: Block,
    words: &[Word],
    progress: &mut Progress,
) -> Result<(), ReadFault>
    ensures { StepGiven result progress.new (and_then (alone block words.now) (λ opened. Ok (in_block opened progress.old))) }
{
    match words {
        [] => {
            progress.open(block);
            Ok(())
        }
        [_, ..] => Err(ReadFault::Bad(Cause::Syntax)),
    }
}
