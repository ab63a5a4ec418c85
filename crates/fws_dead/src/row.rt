//! Points of a row at which two outcomes come to different fates.

ghost use Rattle.std.specs.Prelude.{◌≡◌, ◌<◌, ℕ, true, false, List, [], slice_index, slice_index_or, MatchOption};
ghost use Rattle.fws_box.specs.Sides.{IsWithin, sides_have};
ghost use Rattle.fws_dead.specs.Laid.{laid_over};
ghost use Rattle.fws_dead.specs.Moved.{IsMoved};
ghost use Rattle.fws_dead.specs.Rows.{AreAlikeIn, ArePortsAlike, IsApartIn, IsRow};
ghost use Rattle.fws_iv.specs.declared.iv.Iv.{Iv};
ghost use Rattle.fws_iv.specs.Ivs.{has};
ghost use Rattle.fws_net.specs.declared.outcome.Outcome.{Outcome};
ghost use Rattle.fws_net.specs.declared.packet.State.{State};
ghost use Rattle.fws_net.specs.Fates.{has_ports};

use crate::laid::Laid;
use crate::point::{least_point, point_with};
use crate::written::{first_apart, laid_addr, laid_port};
use fws_box::Point;
use fws_iv::Ivs;
use fws_net::{Outcome, Rewrite, State};

/// The protocols that have ports.
const TCP: u32 = 6;

const UDP: u32 = 17;

/// The fields over which something is written, by number.
const PROTO: usize = 1;

const DST: usize = 2;

const DPORT: usize = 3;

const SRC: usize = 4;

const SPORT: usize = 5;

/// A protocol of the set that has ports, if there is one.
fn proto_with_ports(set: &Ivs) -> Option<u32>
    ensures { MatchOption result ((x : ℕ) → has set.now x ≡ true → has_ports x ≡ false) (λ x. (has set.now x ≡ true) × (has_ports x ≡ true)) }
{
    if set.has(TCP) {
        return Some(TCP);
    }
    if set.has(UDP) {
        return Some(UDP);
    }
    None
}

/// The point with another value for a field over which the two write differently, if its side has one.
fn moved(sides: &[Ivs; 12], point: &Point, field: usize, a: Laid, b: Laid) -> Option<Point>
    requires { field < 12 }
    ensures { MatchOption result ((x : ℕ) → has (slice_index_or sides.now field []) x ≡ true → laid_over a x ≡ laid_over b x) (IsMoved sides.now point.now field a b) }
{
    let found = first_apart(&sides[field], a, b);
    match found {
        Some(value) => Some(point_with(point, field, value)),
        None => None,
    }
}

/// A point of the row with the protocol of this one, which has ports, at which two rewritings write different ports, if there is
/// one.
fn port_apart(sides: &[Ivs; 12], point: &Point, first: Rewrite, second: Rewrite) -> Option<Point>
    ensures { (tops : List ℕ) → IsRow tops sides.now → IsWithin tops point.now → sides_have sides.now point.now ≡ true → has_ports (slice_index point.now 1) ≡ true
        → MatchOption result (ArePortsAlike tops sides.now first second) (IsApartIn State.Fresh tops sides.now (Outcome.Accept first) (Outcome.Accept second)) }
{
    let dport = moved(
        sides,
        point,
        DPORT,
        laid_port(first.dst),
        laid_port(second.dst),
    );
    if dport.is_some() {
        return dport;
    }
    let sport = moved(
        sides,
        point,
        SPORT,
        laid_port(first.src),
        laid_port(second.src),
    );
    sport
}

/// A point of the row at which two rewritings write different ports, if there is one.
fn ports_apart(sides: &[Ivs; 12], point: &Point, first: Rewrite, second: Rewrite) -> Option<Point>
    ensures { (tops : List ℕ) → IsRow tops sides.now → IsWithin tops point.now → sides_have sides.now point.now ≡ true
        → MatchOption result (ArePortsAlike tops sides.now first second) (IsApartIn State.Fresh tops sides.now (Outcome.Accept first) (Outcome.Accept second)) }
{
    let found = proto_with_ports(&sides[PROTO]);
    match found {
        Some(proto) => {
            let ported = point_with(point, PROTO, proto);
            port_apart(sides, &ported, first, second)
        }
        None => None,
    }
}

/// A point of the row at which two rewritings come to different fates of a new packet, if there is one.
fn ends_apart(sides: &[Ivs; 12], point: &Point, first: Rewrite, second: Rewrite) -> Option<Point>
    ensures { (tops : List ℕ) → IsRow tops sides.now → IsWithin tops point.now → sides_have sides.now point.now ≡ true
        → MatchOption result (AreAlikeIn State.Fresh tops sides.now (Outcome.Accept first) (Outcome.Accept second)) (IsApartIn State.Fresh tops sides.now (Outcome.Accept first) (Outcome.Accept second)) }
{
    let dst = moved(
        sides,
        point,
        DST,
        laid_addr(first.dst),
        laid_addr(second.dst),
    );
    if dst.is_some() {
        return dst;
    }
    let src = moved(
        sides,
        point,
        SRC,
        laid_addr(first.src),
        laid_addr(second.src),
    );
    if src.is_some() {
        return src;
    }
    let ports = ports_apart(sides, point, first, second);
    ports
}

/// The same of packets of this kind. Established ones leave with the ends of their connection, whatever is written.
fn rewritings_apart(
    state: State,
    sides: &[Ivs; 12],
    point: &Point,
    first: Rewrite,
    second: Rewrite,
) -> Option<Point>
    ensures { (tops : List ℕ) → IsRow tops sides.now → IsWithin tops point.now → sides_have sides.now point.now ≡ true
        → MatchOption result (AreAlikeIn state tops sides.now (Outcome.Accept first) (Outcome.Accept second)) (IsApartIn state tops sides.now (Outcome.Accept first) (Outcome.Accept second)) }
{
    match state {
        State::Fresh => ends_apart(sides, point, first, second),
        State::Est => None,
    }
}

/// The point, unless the other outcome drops too.
fn dropped_apart(point: &Point, other: Outcome) -> Option<Point>
    ensures { (state : State) (tops : List ℕ) (sides : List (List Iv)) → IsWithin tops point.now → sides_have sides point.now ≡ true
        → MatchOption result (AreAlikeIn state tops sides Outcome.Drop other) (IsApartIn state tops sides Outcome.Drop other) }
{
    match other {
        Outcome::Drop => None,
        Outcome::Accept(_) => Some(*point),
    }
}

/// A point of the row at which the other outcome comes to another fate than this rewriting, if there is one.
fn accepted_apart(
    state: State,
    sides: &[Ivs; 12],
    point: &Point,
    first: Rewrite,
    other: Outcome,
) -> Option<Point>
    ensures { (tops : List ℕ) → IsRow tops sides.now → IsWithin tops point.now → sides_have sides.now point.now ≡ true
        → MatchOption result (AreAlikeIn state tops sides.now (Outcome.Accept first) other) (IsApartIn state tops sides.now (Outcome.Accept first) other) }
{
    match other {
        Outcome::Drop => Some(*point),
        Outcome::Accept(second) => rewritings_apart(state, sides, point, first, second),
    }
}

/// A point of the row at which two outcomes come to different fates, if there is one.
fn outcomes_apart(
    state: State,
    sides: &[Ivs; 12],
    point: &Point,
    first: Outcome,
    second: Outcome,
) -> Option<Point>
    ensures { (tops : List ℕ) → IsRow tops sides.now → IsWithin tops point.now → sides_have sides.now point.now ≡ true
        → MatchOption result (AreAlikeIn state tops sides.now first second) (IsApartIn state tops sides.now first second) }
{
    match first {
        Outcome::Drop => dropped_apart(point, second),
        Outcome::Accept(rewrite) => accepted_apart(state, sides, point, rewrite, second),
    }
}

/// The same of a row of which no point is known.
pub(crate) fn apart_in(
    state: State,
    sides: &[Ivs; 12],
    first: Outcome,
    second: Outcome,
) -> Option<Point>
    ensures { (tops : List ℕ) → IsRow tops sides.now → MatchOption result (AreAlikeIn state tops sides.now first second) (IsApartIn state tops sides.now first second) }
{
    let least = least_point(sides);
    match least {
        Some(point) => outcomes_apart(state, sides, &point, first, second),
        None => None,
    }
}
