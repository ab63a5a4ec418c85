//! What a suggestion says.

use fws_suggest::{List, Marked, Rule};

/// How destinations and sources are translated.
#[derive(Drop)]
pub(crate) struct Translations {
    /// The rules for destinations: a colour is the place of one.
    pub(crate) redirected: Vec<Rule>,
    /// Whether packets whose destination is written get a tag.
    pub(crate) tags_redirected: bool,
    /// Whether they pass in by that, so that the filter doesn't see them there.
    pub(crate) passes_redirected: bool,
    /// The rules for sources: a colour is the place of one.
    pub(crate) sent: Vec<Rule>,
    /// Whether packets whose source is written get a tag.
    pub(crate) tags_sent: bool,
    /// The tags that stand for entries; none where entries aren't asked.
    pub(crate) marks: Vec<Marked>,
}

/// A list of what is passed and blocked.
#[derive(Drop)]
pub(crate) struct Found {
    /// The rules, and what becomes of all other packets.
    pub(crate) list: List,
    /// Whether the list may leave out TCP packets that open no connection.
    pub(crate) opens_only: bool,
}

/// What is passed and blocked.
#[derive(Drop)]
pub(crate) struct Filter {
    /// Whether one list is asked in both directions.
    pub(crate) is_one: bool,
    /// The rules for packets that come in, or for all.
    pub(crate) coming: Found,
    /// The rules for the host's own packets: none where all of them pass.
    pub(crate) leaving: Option<Found>,
    /// Whether these are asked of what is forwarded, too, but for what passed in with a tag: a rule that passes in has the colour TAGGED then.
    pub(crate) asks_again: bool,
}

/// The colour of a pass with a tag, by which a packet passes out.
pub(crate) const TAGGED: u32 = 2;
