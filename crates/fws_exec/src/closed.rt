//! Ways on which every packet is dropped, whatever it is, as where a policy drops and no rule accepts. What stands on such a way, ahead
//! of that policy or behind it, makes no difference, so that none of it is executed: it may cut packets into pieces without number.

ghost use Rattle.std.specs.Prelude.{◌≡◌, ℕ, List, true};
ghost use Rattle.fws_net.specs.declared.site.Site.{Site as AnySite};
ghost use Rattle.fws_net.specs.Points.{packet_of};
ghost use Rattle.fws_flat.specs.Soundness.{flat_ok};
ghost use Rattle.fws_flat.specs.Walk.{means, part_code};
ghost use Rattle.fws_exec.specs.Classes.{kind_of};
ghost use Rattle.fws_exec.specs.Closed.{is_established, asks_other, is_for_others, is_always, outlook_behind, outlook_at, drops, is_closed_part, is_closed, way_along, flat_along};

use fws_flat::{Flat, FlatAct, Ins, Part};
use fws_net::{Cond, Lit, State, Test};

/// The parts that packets meet on each of their ways.
#[derive(Clone, Copy)]
pub(crate) struct Parts<'a> {
    /// What an arriving packet meets before it is routed.
    pub arrive: &'a [Part],
    /// What a packet meets then that is delivered.
    pub deliver: &'a [Part],
    /// What a packet meets then that is forwarded.
    pub forward: &'a [Part],
    /// What a packet of the host itself meets.
    pub send: &'a [Part],
}

/// What becomes of packets at an instruction, wherever in a part they came from.
#[derive(Clone, Copy)]
pub(crate) enum Outlook {
    /// It lets some of them leave the part and go on.
    Open,
    /// It drops all of them.
    Closed,
    /// It drops them or leaves them in the part: whether the verdict so far may be to accept, and the furthest place to which one of
    /// them jumped.
    Further(bool, usize),
}

/// A part without instructions, which drops every packet.
const DROPPED: &[Part] = &[Part {
    first: 0,
    past: 0,
    shows_recv: false,
    shows_xmit: false,
    outward: false,
    end: false,
}];

/// Whether packets belong to tracked connections.
fn is_established(state: State) -> bool
    ensures { result ≡ is_established state }
{
    match state {
        State::Fresh => false,
        State::Est => true,
    }
}

/// Whether the literal asks for packets of the other kind: for new ones where they are established, and the other way round.
fn asks_other(established: bool, lit: &Lit) -> bool
    ensures { result ≡ asks_other established lit.now.not lit.now.test }
{
    match lit.test {
        Test::Est => { if lit.not { established } else { !established } }
        _ => false,
    }
}

/// Whether the condition asks for packets of the other kind, so that it holds for none of these.
fn is_for_others(established: bool, cond: &Cond) -> bool
    ensures { result ≡ is_for_others established cond.now }
{
    cond.lits().iter().any(|lit| asks_other(established, lit))
}

/// Whether the condition holds for every packet, since nothing is asked.
fn is_always(cond: &Cond) -> bool
    ensures { result ≡ is_always cond.now }
{
    cond.lits().is_empty()
}

/// What becomes of packets behind an act at the place, by what became of those ahead of it.
fn outlook_behind(always: bool, at: usize, accepts: bool, furthest: usize, act: FlatAct) -> Outlook
    ensures { result ≡ outlook_behind always at accepts furthest act }
{
    match act {
        FlatAct::Accept => Outlook::Open,
        FlatAct::Drop => {
            if always && furthest <= at {
                Outlook::Closed
            } else {
                Outlook::Further(accepts, furthest)
            }
        }
        FlatAct::Hold(accept) => Outlook::Further(accepts || accept, furthest),
        FlatAct::Jump(to) => Outlook::Further(accepts, furthest.max(to as usize)),
        _ => Outlook::Further(accepts, furthest),
    }
}

/// What becomes of packets at the instruction at the place, by what became of those ahead of it.
fn outlook_at(established: bool, at: usize, accepts: bool, furthest: usize, ins: &Ins) -> Outlook
    ensures { result ≡ outlook_at established at accepts furthest ins.now }
{
    if is_for_others(established, &ins.cond) {
        return Outlook::Further(accepts, furthest);
    }
    outlook_behind(is_always(&ins.cond), at, accepts, furthest, ins.act)
}

/// The instructions of a part.
fn part_code<'a>(code: &'a [Ins], part: &Part) -> &'a [Ins]
    ensures { result.now ≡ part_code code.now part.now }
{
    let first = part.first as usize;
    let past = code.len().min(part.past as usize);
    if past <= first {
        return &[];
    }
    &code[first..past]
}

/// Whether instructions drop every packet, of which the first has this place, where the verdict at their end is this one unless one of
/// them holds another.
fn drops(established: bool, first: u32, code: &[Ins], end: bool) -> bool
    ensures { result ≡ drops established first code.now end 0 }
{
    let mut accepts = end;
    let mut furthest = 0;
    for (k, ins) in code.iter().enumerate() {
        match outlook_at(established, first as usize + k, accepts, furthest, ins) {
            Outlook::Open => return false,
            Outlook::Closed => return true,
            Outlook::Further(accept, place) => {
                accepts = accept;
                furthest = place;
            }
        }
    }
    !accepts
}

/// Whether the part drops every packet.
fn is_closed_part(established: bool, code: &[Ins], part: &Part) -> bool
    ensures { result ≡ is_closed_part established code.now part.now }
{
    drops(established, part.first, part_code(code, part), part.end)
}

/// Whether one of the parts drops every packet.
fn is_closed(established: bool, code: &[Ins], parts: &[Part]) -> bool
    ensures { result ≡ is_closed established code.now parts.now }
{
    parts
        .iter()
        .any(|part| is_closed_part(established, code, part))
}

/// A way along the parts, or one that drops every packet at once.
fn way_along(closed: bool, parts: &[Part]) -> &[Part]
    ensures { result.now ≡ way_along closed parts.now }
{
    if closed { DROPPED } else { parts }
}

/// The parts of `f`, where this code stands in the place of its code, but for those on ways on which all packets of the state are
/// dropped: no instruction is left there. What becomes of each packet of the state is the same.
pub(crate) fn open_parts<'a>(code: &[Ins], f: &'a Flat, state: State) -> Parts<'a>
    ensures ok { flat_ok (record f.now { code = code.now }) ≡ true → flat_ok (flat_along code.now result) ≡ true }
    ensures means { (site : AnySite) (p : List ℕ) → means (flat_along code.now result) site (packet_of p) (kind_of state p) ≡ means (record f.now { code = code.now }) site (packet_of p) (kind_of state p) }
{
    let established = is_established(state);
    let arrive = f.arrive.as_slice();
    let deliver = f.deliver.as_slice();
    let forward = f.forward.as_slice();
    let send = f.send.as_slice();
    let delivered = is_closed(established, code, deliver);
    let forwarded = is_closed(established, code, forward);
    let arrived = is_closed(established, code, arrive) || delivered && forwarded;
    let sent = is_closed(established, code, send);
    Parts {
        arrive: way_along(arrived, arrive),
        deliver: way_along(delivered, deliver),
        forward: way_along(forwarded, forward),
        send: way_along(sent, send),
    }
}
