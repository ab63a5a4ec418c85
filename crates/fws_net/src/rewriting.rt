//! Packets with other ends.

ghost use Rattle.std.specs.Prelude.{◌≡◌};
ghost use Rattle.fws_net.specs.Transits.{rewritten, with_rec_dst, with_rec_src, tracked_dst, tracked_src};

use crate::connection::{Kind, Rec};
use crate::outcome::{Fate, Rewrite};
use crate::packet::Packet;

impl Packet {
    /// The packet with the ends over its fields.
    pub fn rewritten(&self, w: &Rewrite) -> Packet
        ensures { result ≡ rewritten self.now w.now }
    {
        let Fate::Sent {
            dst,
            dport,
            src,
            sport,
        } = w.apply(self)
        else {
            unreachable!()
        };
        Packet {
            dst,
            dport,
            src,
            sport,
            ..*self
        }
    }

    /// The packet with the destination with which an established packet leaves.
    pub fn with_rec_dst(&self, r: &Rec) -> Packet
        ensures { result ≡ with_rec_dst r.now self.now }
    {
        let Fate::Sent { dst, dport, .. } = r.apply(self) else {
            unreachable!()
        };
        Packet {
            dst,
            dport,
            ..*self
        }
    }

    /// The packet with the source with which an established packet leaves.
    pub fn with_rec_src(&self, r: &Rec) -> Packet
        ensures { result ≡ with_rec_src r.now self.now }
    {
        let Fate::Sent { src, sport, .. } = r.apply(self) else {
            unreachable!()
        };
        Packet {
            src,
            sport,
            ..*self
        }
    }

    /// The packet with the destination with which one of its class leaves by its connection; a new
    /// packet as it is.
    pub fn tracked_dst(&self, k: &Kind) -> Packet
        ensures { result ≡ tracked_dst k.now self.now }
    {
        match k {
            Kind::New => *self,
            Kind::Est(r) => self.with_rec_dst(r),
        }
    }

    /// The packet with the source with which one of its class leaves by its connection; a new packet
    /// as it is.
    pub fn tracked_src(&self, k: &Kind) -> Packet
        ensures { result ≡ tracked_src k.now self.now }
    {
        match k {
            Kind::New => *self,
            Kind::Est(r) => self.with_rec_src(r),
        }
    }
}
