//! What is chosen in place of what trees hold.

ghost use Rattle.std.specs.Prelude.{◌≡◌, ◌+◌, None, Some, option_map, IfOk};
ghost use Rattle.fws_ipfw_put.specs.Layout.{arriving_choice, destination_number, destined, passing, place_of, sent_by, sent_choice, source_tag, tag_of};

use crate::sections::{DESTINATIONS, LOOKUP, SOURCES};
use fws_ipfw_put_rules::Choice;
use fws_net::{End, Outcome};
use fws_num::Memory;
use fws_tree::Relabelling;
use indexmap::IndexSet;
use std::alloc::Global;

/// The sum of a number and a place. An error is a sum too large for a number.
fn moved(number: u32, place: usize) -> Result<u32, Memory>
    ensures { IfOk result (λ n. n ≡ place + number) }
{
    match u32::try_from(place) {
        Err(_) => Err(Memory),
        Ok(place) => match place.checked_add(number) {
            Some(sum) => Ok(sum),
            None => Err(Memory),
        },
    }
}

/// The number of the rules for the destination at a place. An error is a number too large for a rule.
fn destination_number(place: usize) -> Result<u32, Memory>
    ensures { IfOk result (λ n. n ≡ destination_number place) }
{
    moved(DESTINATIONS, place)
}

/// The tag for the source at a place. An error is a number too large for a tag.
fn source_tag(place: usize) -> Result<u32, Memory>
    ensures { IfOk result (λ n. n ≡ source_tag place) }
{
    moved(2, place)
}

/// The tag for a source. An error is a number too large for a tag.
fn tag_of_end(sources: &IndexSet<End>, end: End) -> Result<Option<u32>, Memory>
    ensures { IfOk result (λ tag. tag ≡ option_map source_tag (place_of sources.now.keys end)) }
{
    match sources.get_index_of(&end) {
        None => Ok(None),
        Some(place) => {
            let tag = source_tag(place)?;
            Ok(Some(tag))
        }
    }
}

/// The tag for a source, if one is written. An error is a number too large for a tag.
fn tag_of(sources: &IndexSet<End>, end: Option<End>) -> Result<Option<u32>, Memory>
    ensures { IfOk result (λ tag. tag ≡ tag_of sources.now.keys end) }
{
    match end {
        None => Ok(None),
        Some(end) => tag_of_end(sources, end),
    }
}

/// What is chosen for a packet that gets a destination. An error is a number too large for a rule.
fn destined_to(destinations: &IndexSet<End>, end: End, tag: Option<u32>) -> Result<Choice, Memory>
    ensures { IfOk result (λ choice. choice ≡ destined destinations.now.keys (Some end) tag) }
{
    match destinations.get_index_of(&end) {
        None => Ok(Choice::Deny),
        Some(place) => {
            let number = destination_number(place)?;
            Ok(Choice::Skip(number, tag))
        }
    }
}

/// What is chosen for a packet that is accepted as it arrives. An error is a number too large for a rule.
fn destined(
    destinations: &IndexSet<End>,
    end: Option<End>,
    tag: Option<u32>,
) -> Result<Choice, Memory>
    ensures { IfOk result (λ choice. choice ≡ destined destinations.now.keys end tag) }
{
    match end {
        None => Ok(Choice::Allow(tag)),
        Some(end) => destined_to(destinations, end, tag),
    }
}

/// What is chosen for a packet of the host that is accepted.
fn sent_by(tag: Option<u32>) -> Choice
    ensures { result ≡ sent_by tag }
{
    match tag {
        None => Choice::Allow(None),
        Some(tag) => Choice::Skip(SOURCES, Some(tag)),
    }
}

/// What is true goes on to the look-up of connections, and what is false is dropped.
#[derive(Drop)]
pub(crate) struct Passing;

impl Relabelling<bool, Choice> for Passing {
    ghost use Rattle.fws_ipfw_put.specs.Layout.{passing};

    ghost gives = { λ s b. passing b };

    fn leaf(&self, _alloc: Global, leaf: &bool) -> Result<Choice, Memory> {
        Ok(if *leaf {
            Choice::Skip(LOOKUP, None)
        } else {
            Choice::Deny
        })
    }
}

/// New packets that arrive are dropped, or they get the tag of their source, and go on to their destination.
#[derive(Drop)]
pub(crate) struct Arriving<'a> {
    /// The destinations.
    pub(crate) destinations: &'a IndexSet<End>,
    /// The sources.
    pub(crate) sources: &'a IndexSet<End>,
}

impl Relabelling<Outcome, Choice> for Arriving<'_> {
    ghost use Rattle.fws_ipfw_put.specs.Layout.{arriving_choice};

    ghost gives = { λ s o. arriving_choice s.destinations.now.keys s.sources.now.keys o };

    fn leaf(&self, _alloc: Global, leaf: &Outcome) -> Result<Choice, Memory> {
        match leaf {
            Outcome::Drop => Ok(Choice::Deny),
            Outcome::Accept(rewrite) => {
                let tag = tag_of(self.sources, rewrite.src)?;
                destined(self.destinations, rewrite.dst, tag)
            }
        }
    }
}

/// New packets of the host are dropped, or they get the tag of their source and go on to the sources.
#[derive(Drop)]
pub(crate) struct Sent<'a> {
    /// The sources.
    pub(crate) sources: &'a IndexSet<End>,
}

impl Relabelling<Outcome, Choice> for Sent<'_> {
    ghost use Rattle.fws_ipfw_put.specs.Layout.{sent_choice};

    ghost gives = { λ s o. sent_choice s.sources.now.keys o };

    fn leaf(&self, _alloc: Global, leaf: &Outcome) -> Result<Choice, Memory> {
        match leaf {
            Outcome::Drop => Ok(Choice::Deny),
            Outcome::Accept(rewrite) => {
                let tag = tag_of(self.sources, rewrite.src)?;
                Ok(sent_by(tag))
            }
        }
    }
}
