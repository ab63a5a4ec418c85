//! Packets on their way through rules.

ghost use Rattle.std.specs.Prelude.{◌≡◌, nat_eq, not, IfOk};
ghost use Rattle.std.specs.List.{filter};
ghost use Rattle.fws_net.specs.Routes.{IsSound};
ghost use Rattle.fws_net.specs.Transits.{nothing_written, entered, seen, with_verdict, with_wrote, with_src, with_dst, with_tracked_src, with_tracked_dst, has_tag, with_tag, with_only_tag, without_tag, decided, outcome_of};

use crate::connection::Kind;
use crate::outcome::{End, Outcome, Rewrite};
use crate::packet::Packet;
use crate::shown::sending_entry;
use crate::site::Site;
use crate::view::View;
use fws_num::{Items, Memory};
use std::alloc::Global;

/// A packet on its way through rules.
#[derive(Drop)]
pub struct Transit {
    /// Its fields as they stand.
    pub packet: Packet,
    /// Its tags, each once.
    pub tags: Items<u32>,
    /// The verdict so far: true is accept.
    pub verdict: bool,
    /// The ends that rules wrote, over the fields with which it entered.
    pub wrote: Rewrite,
}

impl Rewrite {
    /// Nothing is written.
    pub fn nothing() -> Rewrite
        ensures { result ≡ nothing_written }
    {
        Rewrite {
            src: None,
            dst: None,
        }
    }
}

impl Transit {
    /// The packet as it enters: without tags, accepted so far, and with nothing written.
    pub fn entered(alloc: Global, p: &Packet) -> Transit
        ensures { result ≡ entered p.now }
    {
        Transit {
            packet: *p,
            tags: Items::new(alloc),
            verdict: true,
            wrote: Rewrite::nothing(),
        }
    }

    /// What a rule sees of the packet, where the receiving and the sending interface are shown or not. Fails if memory runs out.
    pub fn seen(
        &self,
        alloc: Global,
        site: &Site,
        shows_recv: bool,
        shows_xmit: bool,
        outward: bool,
        est: bool,
    ) -> Result<View, Memory>
        requires { IsSound site.now }
        ensures { IfOk result (λ v. v ≡ seen site.now shows_recv shows_xmit outward est self.now) }
    {
        let packet = self.packet;
        Ok(View {
            packet,
            recv: if shows_recv { packet.receiving() } else { None },
            xmit: if shows_xmit {
                sending_entry(site, &packet)
            } else {
                None
            },
            outward,
            est,
            tags: Items::from_vec(Vec::from_slice(alloc, self.tags.as_slice())?),
        })
    }

    /// Holds this verdict so far; true is accept.
    pub fn with_verdict(self, accepts: bool) -> Transit
        ensures { result ≡ with_verdict accepts self }
    {
        Transit {
            verdict: accepts,
            ..self
        }
    }

    /// Puts these ends over the fields of the packet that entered as `p`.
    fn with_wrote(self, p: &Packet, w: Rewrite) -> Transit
        ensures { result ≡ with_wrote p.now w self }
    {
        Transit {
            packet: p.rewritten(&w),
            wrote: w,
            ..self
        }
    }

    /// Writes the end over the source of the packet that entered as `p`. Ends of a connection that were put in place are gone
    /// then.
    pub fn with_src(self, p: &Packet, end: End) -> Transit
        ensures { result ≡ with_src p.now end self }
    {
        let wrote = Rewrite {
            src: Some(end),
            ..self.wrote
        };
        self.with_wrote(p, wrote)
    }

    /// Writes the end over the destination of the packet that entered as `p`. Ends of a connection that were put in place are
    /// gone then.
    pub fn with_dst(self, p: &Packet, end: End) -> Transit
        ensures { result ≡ with_dst p.now end self }
    {
        let wrote = Rewrite {
            dst: Some(end),
            ..self.wrote
        };
        self.with_wrote(p, wrote)
    }

    /// Puts the source with which an established packet leaves in place; a new one keeps its own.
    pub fn with_tracked_src(self, k: &Kind) -> Transit
        ensures { result ≡ with_tracked_src k.now self }
    {
        Transit {
            packet: self.packet.tracked_src(k),
            ..self
        }
    }

    /// Puts the destination with which an established packet leaves in place; a new one keeps its
    /// own.
    pub fn with_tracked_dst(self, k: &Kind) -> Transit
        ensures { result ≡ with_tracked_dst k.now self }
    {
        Transit {
            packet: self.packet.tracked_dst(k),
            ..self
        }
    }

    /// Whether the packet has the tag.
    pub fn has_tag(&self, tag: u32) -> bool
        ensures { result ≡ has_tag tag self.now }
    {
        self.tags.as_slice().iter().any(|own| tag == *own)
    }

    /// Adds the tag behind the others; one that is there isn't added again. Fails if memory runs out.
    pub fn with_tag(mut self, tag: u32) -> Result<Transit, Memory>
        ensures { IfOk result (λ t. t ≡ with_tag tag self) }
    {
        if !self.has_tag(tag) {
            self.tags.put(tag)?;
        }
        Ok(self)
    }

    /// Makes the tag the only one. Fails if memory runs out.
    pub fn with_only_tag(self, alloc: Global, tag: u32) -> Result<Transit, Memory>
        ensures { IfOk result (λ t. t ≡ with_only_tag tag self) }
    {
        let mut tags = Items::new(alloc);
        tags.put(tag)?;
        Ok(Transit { tags, ..self })
    }

    /// Takes the tag away; the others keep their order. Fails if memory runs out.
    pub fn without_tag(self, alloc: Global, tag: u32) -> Result<Transit, Memory>
        ensures { IfOk result (λ t. t ≡ without_tag tag self) }
    {
        let tags = tags_without(alloc, self.tags.as_slice(), tag)?;
        Ok(Transit { tags, ..self })
    }

    /// The packet where the verdict so far is accept, else none.
    pub fn decided(self) -> Option<Transit>
        ensures { result ≡ decided self }
    {
        if self.verdict { Some(self) } else { None }
    }
}

/// The tags other than this one, in their order.
fn tags_without(alloc: Global, tags: &[u32], tag: u32) -> Result<Items<u32>, Memory>
    ensures { IfOk result (λ kept. kept ≡ filter (λ own. not (nat_eq tag own)) tags.now) }
{
    let mut kept = Items::new(alloc);
    for own in tags {
        if tag != *own {
            kept.put(*own)?;
        }
    }
    Ok(kept)
}

/// The outcome for a packet of the class which is behind its whole way; none was dropped. A new packet
/// is accepted with what was written, an established one without a rewriting.
pub fn outcome_of(k: &Kind, end: &Option<Transit>) -> Outcome
    ensures { result ≡ outcome_of k.now end.now }
{
    match (end, k) {
        (None, _) => Outcome::Drop,
        (Some(t), Kind::New) => Outcome::Accept(t.wrote),
        (Some(_), Kind::Est(_)) => Outcome::Accept(Rewrite::nothing()),
    }
}
