//! Packets for which the condition of an instruction may hold, made of the condition itself. Another rule may take them ahead of it, so that
//! who uses one walks it.

use crate::points::{Sight, packet_of};
use fws_flat::{Flat, Ins, Part};
use fws_iv::Ivs;
use fws_net::{Kind, Lit, Rec, Site, Test, face_addr};

/// An address that is nobody's: of the networks for documents.
const OUTSIDE: u32 = 0xc633_6401;

/// What is asked of a packet.
#[derive(Clone, Copy)]
struct Aim {
    /// Its fields, as points have them.
    point: [u32; 12],
    is_est: bool,
}

/// The least number that no set has.
fn outside(set: &Ivs) -> u32 {
    let mut next = 0u32;
    for part in set.parts() {
        if part.lo > next {
            break;
        }
        next = part.hi.saturating_add(1);
    }
    next
}

/// A member of a set, or a number that isn't.
fn value_by(set: &Ivs, not: bool) -> u32 {
    if not {
        return outside(set);
    }
    match set.parts().first() {
        Some(part) => part.lo,
        None => 0,
    }
}

/// Whether an instruction stands in one of some parts.
fn is_in(parts: &[Part], at: u32) -> bool {
    parts.iter().any(|part| part.first <= at && at < part.past)
}

impl Aim {
    /// What is asked of all packets that come to an instruction.
    fn at(code: &Flat, site: &Site, at: u32) -> Aim {
        let is_sent = is_in(code.send.as_slice(), at);
        let is_delivered = is_in(code.deliver.as_slice(), at);
        let entry = if is_sent && !is_in(code.forward.as_slice(), at) {
            0
        } else {
            2
        };
        let own = face_addr(site, 2);
        let dst = if is_delivered { own } else { OUTSIDE };
        let src = if entry == 0 { own } else { OUTSIDE };
        Aim {
            point: [entry, 6, dst, 80, src, 50000, 2, 8, 0, 0, 0, 0],
            is_est: false,
        }
    }

    /// Asks a value of a field.
    fn put(&mut self, field: usize, value: u32) {
        if let Some(place) = self.point.get_mut(field) {
            *place = value;
        }
    }

    /// Asks a literal.
    fn ask(&mut self, lit: &Lit) {
        let not = lit.not;
        match &lit.test {
            Test::Recv(set) | Test::Via(set) => self.put(0, value_by(set, not)),
            Test::Proto(set) => self.put(1, value_by(set, not)),
            Test::Dst(set) => self.put(2, value_by(set, not)),
            Test::Dport(set) => self.put(3, value_by(set, not)),
            Test::Src(set) => self.put(4, value_by(set, not)),
            Test::Sport(set) => self.put(5, value_by(set, not)),
            Test::Flags { mask, want } => {
                let flags = if not { *mask ^ *want } else { *want };
                self.put(6, u32::from(flags));
            }
            Test::AnyFlag(mask) => self.put(6, if not { 0 } else { u32::from(*mask) }),
            Test::Icmp(set) => self.put(7, value_by(set, not)),
            Test::Est => self.is_est = !not,
            Test::Xmit(_) | Test::Outward | Test::Tag(_) | Test::Never => {}
        }
    }

    /// The packet, which leaves with its own ends where it belongs to a connection.
    fn sight(&self) -> Sight {
        let packet = packet_of(&self.point);
        let kind = if self.is_est {
            Kind::Est(Rec {
                rdst: packet.dst,
                rdport: packet.dport,
                rsrc: packet.src,
                rsport: packet.sport,
            })
        } else {
            Kind::New
        };
        Sight { packet, kind }
    }
}

/// A packet for which the condition of an instruction may hold.
pub(crate) fn aimed(code: &Flat, site: &Site, at: u32, ins: &Ins) -> Sight {
    let mut aim = Aim::at(code, site, at);
    for lit in ins.cond.lits() {
        aim.ask(lit);
    }
    aim.sight()
}
