//! What rules did to the packets of a class.

ghost use Rattle.std.specs.Prelude.{◌≡◌, ℕ, List, true, false, None, Some, not, nat_eq, IfOk};
ghost use Rattle.std.specs.List.{filter, list_any};
ghost use Rattle.fws_net.specs.declared.site.Site.{Site};
ghost use Rattle.fws_net.specs.Points.{packet_of};
ghost use Rattle.fws_net.specs.Transits.{entered, with_verdict, with_wrote, with_src, with_dst, with_tracked_src, with_tracked_dst, with_tag, with_only_tag, without_tag, outcome_of};
ghost use Rattle.fws_flat.specs.Walk.{sees};
ghost use Rattle.fws_box_conditions.specs.Scenes.{view_of};
ghost use Rattle.fws_exec.specs.Classes.{kind_of, standing_by, transit_of, untouched};

use fws_box_conditions::{Scene, Standing};
use fws_flat::Part;
use fws_net::{End, Outcome, Rewrite, State};
use fws_num::{Items, Memory};
use std::alloc::Global;

/// What rules did so far to the packets of a class, alike to all of them.
#[derive(Drop)]
pub(crate) struct Progress {
    /// The ends that rules wrote, over the fields with which the packets entered.
    pub wrote: Rewrite,
    /// The source is that with which the connection sends the packet.
    pub src_tracked: bool,
    /// The destination is that with which the connection sends the packet.
    pub dst_tracked: bool,
    /// Their tags, each once.
    pub tags: Items<u32>,
    /// The verdict so far: true is accept.
    pub verdict: bool,
}

/// How an address and its port stand: as the connection sends them, with an end over them, or as they
/// entered.
fn standing_by(tracked: bool, end: Option<End>) -> Standing
    ensures { result ≡ standing_by tracked end }
{
    if tracked {
        return Standing::Tracked;
    }
    match end {
        None => Standing::Entered,
        Some(end) => Standing::Written(end),
    }
}

/// Equal tags.
fn copied_tags(alloc: Global, tags: &[u32]) -> Result<Items<u32>, Memory>
    ensures { IfOk result (λ copy. copy ≡ tags.now) }
{
    Ok(Items::from_vec(Vec::from_slice(alloc, tags)?))
}

/// Whether the tag is among these.
fn has_tag(tags: &[u32], tag: u32) -> bool
    ensures { result ≡ list_any (nat_eq tag) tags.now }
{
    tags.iter().any(|own| tag == *own)
}

/// The tags other than this one, in their order.
fn tags_without(alloc: Global, tags: &[u32], tag: u32) -> Result<Items<u32>, Memory>
    ensures { IfOk result (λ kept. kept ≡ filter (λ own. not (nat_eq tag own)) tags.now) }
{
    let mut kept = Items::new(alloc);
    for own in tags {
        if tag != *own {
            kept.put(*own)?;
        }
    }
    Ok(kept)
}

impl Progress {
    /// Packets enter without tags, accepted so far, and with nothing written.
    pub(crate) fn entered(alloc: Global) -> Progress
        ensures is { result ≡ untouched }
        ensures transit { (p : List ℕ) → transit_of result p ≡ entered (packet_of p) }
    {
        Progress {
            wrote: Rewrite::nothing(),
            src_tracked: false,
            dst_tracked: false,
            tags: Items::new(alloc),
            verdict: true,
        }
    }

    /// Whether the packets have the tag.
    pub(crate) fn has_tag(&self, tag: u32) -> bool
        ensures { result ≡ list_any (nat_eq tag) self.now.tags }
    {
        has_tag(self.tags.as_slice(), tag)
    }

    /// An equal value.
    pub(crate) fn copy(&self, alloc: Global) -> Result<Progress, Memory>
        ensures { IfOk result (λ g. g ≡ self.now) }
    {
        Ok(Progress {
            wrote: self.wrote,
            src_tracked: self.src_tracked,
            dst_tracked: self.dst_tracked,
            tags: copied_tags(alloc, self.tags.as_slice())?,
            verdict: self.verdict,
        })
    }

    /// What stands for the packets where a rule of the part is met.
    pub(crate) fn scene(&self, alloc: Global, part: Part, state: State) -> Result<Scene, Memory>
        ensures { IfOk result (λ scene. (site : Site) (p : List ℕ) → view_of site scene p ≡ sees site (kind_of state p) part (transit_of self.now p)) }
    {
        Ok(Scene {
            src: standing_by(self.src_tracked, self.wrote.src),
            dst: standing_by(self.dst_tracked, self.wrote.dst),
            shows_recv: part.shows_recv,
            shows_xmit: part.shows_xmit,
            outward: part.outward,
            est: state == State::Est,
            tags: copied_tags(alloc, self.tags.as_slice())?,
        })
    }

    /// Holds this verdict so far; true is accept.
    pub(crate) fn with_verdict(self, accepts: bool) -> Progress
        ensures { (p : List ℕ) → transit_of result p ≡ with_verdict accepts (transit_of self p) }
    {
        Progress {
            verdict: accepts,
            ..self
        }
    }

    /// Puts these ends over the fields with which the packets entered.
    fn with_wrote(self, wrote: Rewrite) -> Progress
        ensures { (p : List ℕ) → transit_of result p ≡ with_wrote (packet_of p) wrote (transit_of self p) }
    {
        Progress {
            wrote,
            src_tracked: false,
            dst_tracked: false,
            ..self
        }
    }

    /// Writes the end over the source.
    pub(crate) fn with_src(self, end: End) -> Progress
        ensures { (p : List ℕ) → transit_of result p ≡ with_src (packet_of p) end (transit_of self p) }
    {
        let wrote = Rewrite {
            src: Some(end),
            ..self.wrote
        };
        self.with_wrote(wrote)
    }

    /// Writes the end over the destination.
    pub(crate) fn with_dst(self, end: End) -> Progress
        ensures { (p : List ℕ) → transit_of result p ≡ with_dst (packet_of p) end (transit_of self p) }
    {
        let wrote = Rewrite {
            dst: Some(end),
            ..self.wrote
        };
        self.with_wrote(wrote)
    }

    /// Puts the source in place with which a connection sends its packets; new ones keep their own.
    pub(crate) fn with_tracked_src(self, state: State) -> Progress
        ensures { (p : List ℕ) → transit_of result p ≡ with_tracked_src (kind_of state p) (transit_of self p) }
    {
        match state {
            State::Fresh => self,
            State::Est => Progress {
                src_tracked: true,
                ..self
            },
        }
    }

    /// Puts the destination in place with which a connection sends its packets; new ones keep their own.
    pub(crate) fn with_tracked_dst(self, state: State) -> Progress
        ensures { (p : List ℕ) → transit_of result p ≡ with_tracked_dst (kind_of state p) (transit_of self p) }
    {
        match state {
            State::Fresh => self,
            State::Est => Progress {
                dst_tracked: true,
                ..self
            },
        }
    }

    /// Adds the tag behind the others; one that is there isn't added again.
    pub(crate) fn with_tag(mut self, tag: u32) -> Result<Progress, Memory>
        ensures { IfOk result (λ g. (p : List ℕ) → transit_of g p ≡ with_tag tag (transit_of self p)) }
    {
        if has_tag(self.tags.as_slice(), tag) {
            return Ok(self);
        }
        self.tags.put(tag)?;
        Ok(self)
    }

    /// Makes the tag the only one.
    pub(crate) fn with_only_tag(self, alloc: Global, tag: u32) -> Result<Progress, Memory>
        ensures { IfOk result (λ g. (p : List ℕ) → transit_of g p ≡ with_only_tag tag (transit_of self p)) }
    {
        let mut tags = Items::new(alloc);
        tags.put(tag)?;
        Ok(Progress { tags, ..self })
    }

    /// Takes the tag away; the others keep their order.
    pub(crate) fn without_tag(self, alloc: Global, tag: u32) -> Result<Progress, Memory>
        ensures { IfOk result (λ g. (p : List ℕ) → transit_of g p ≡ without_tag tag (transit_of self p)) }
    {
        let tags = tags_without(alloc, self.tags.as_slice(), tag)?;
        Ok(Progress { tags, ..self })
    }

    /// The outcome of packets that are behind their whole way.
    pub(crate) fn outcome(&self, state: State) -> Outcome
        ensures { (p : List ℕ) → result ≡ outcome_of (kind_of state p) (Some (transit_of self.now p)) }
    {
        match state {
            State::Fresh => Outcome::Accept(self.wrote),
            State::Est => Outcome::Accept(Rewrite::nothing()),
        }
    }
}
