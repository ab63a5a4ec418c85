//! Diagrams unfolded.

ghost use Rattle.std.specs.Prelude.{◌≡◌, true, None, length, IfOk, IfErr};
ghost use Rattle.fws_net.specs.declared.packet.Packet.{Packet};
ghost use Rattle.fws_net.specs.declared.connection.Kind.{Kind};
ghost use Rattle.fws_net.specs.declared.site.Site.{Site};
ghost use Rattle.fws_ifcl.specs.Refusals.{refusal_of};
ghost use Rattle.fws_ifcl.specs.Soundness.{ifcl_ok};
ghost use Rattle.fws_ifcl.specs.Walk.{means as diagram_means};
ghost use Rattle.fws_flat.specs.Soundness.{flat_ok};
ghost use Rattle.fws_flat.specs.Walk.{means as flat_means};
ghost use Rattle.fws_ifcl.specs.Uses.{used_places};
ghost use Rattle.fws_flat.specs.Uses.{used_places as flat_used};
ghost use Rattle.fws_unfold.specs.Told.{told};
ghost use Rattle.fws_unfold.specs.Refused.{Refuses};

use crate::answer::UnfoldAnswer;
use crate::blocks::{parts_of, put_blocks};
use crate::refusing::refusal;
use fws_flat::Flat;
use fws_ifcl::{Ifcl, Place, UnfoldRefusal, ok_diagrams_name_chains, unrefused_have_no_loop};
use fws_num::{Items, Memory};
use std::alloc::Global;

/// The code of a diagram that can be unfolded, and the rules that its instructions stand for.
fn code_of(alloc: Global, f: &Ifcl) -> Result<(Flat, Vec<Option<Place>>), Memory>
    requires ok { ifcl_ok f.now ≡ true }
    requires unrefused { refusal_of f.now ≡ None }
    ensures ok { IfOk result (λ x. flat_ok x.0 ≡ true) }
    ensures means { IfOk result (λ x. (site : Site) (p : Packet) (k : Kind) → flat_means x.0 site p k ≡ diagram_means f.now site p k) }
    ensures entries { IfOk result (λ x. length x.1.items ≡ length x.0.code) }
    ensures uses { IfOk result (λ x. (site : Site) (p : Packet) (k : Kind) → told x.1.items (flat_used x.0 site p k) ≡ used_places f.now site p k) }
{
    ok_diagrams_name_chains();
    unrefused_have_no_loop();
    let mut code = Vec::new(alloc);
    let mut rules = Vec::new(alloc);
    let made = put_blocks(alloc, f, &mut code, &mut rules)?;
    let spans = made.as_slice();
    let flat = Flat {
        code: Items::from_vec(code),
        arrive: parts_of(alloc, spans, f.arrive.as_slice())?,
        deliver: parts_of(alloc, spans, f.deliver.as_slice())?,
        forward: parts_of(alloc, spans, f.forward.as_slice())?,
        send: parts_of(alloc, spans, f.send.as_slice())?,
    };
    Ok((flat, rules))
}

/// Flat code that does with each packet what the diagram does, and for each of its instructions the rule
/// that it stands for, if it does: a packet uses a rule exactly where it uses an instruction that stands
/// for the rule. Or why there is none: a chain reaches itself, else a path of calls from a chain of a
/// stage has more than 64 chains, else, where some rule calls a chain or goes to one, the rules of the
/// unfolded chains of stages are more than 1,000,000. Linear in the unfolded rules; a refusal is
/// linear in the diagram.
pub fn unfold_from(alloc: Global, f: &Ifcl) -> Result<(Flat, Vec<Option<Place>>), UnfoldAnswer>
    requires { ifcl_ok f.now ≡ true }
    ensures unrefused { IfOk result (λ x. refusal_of f.now ≡ None) }
    ensures ok { IfOk result (λ x. flat_ok x.0 ≡ true) }
    ensures means { IfOk result (λ x. (site : Site) (p : Packet) (k : Kind) → flat_means x.0 site p k ≡ diagram_means f.now site p k) }
    ensures entries { IfOk result (λ x. length x.1.items ≡ length x.0.code) }
    ensures uses { IfOk result (λ x. (site : Site) (p : Packet) (k : Kind) → told x.1.items (flat_used x.0 site p k) ≡ used_places f.now site p k) }
    ensures refused { IfErr result (λ e. Refuses e (refusal_of f.now)) }
{
    let found = refusal(alloc, f)?;
    match found {
        Some(UnfoldRefusal::Loop(c)) => Err(UnfoldAnswer::Loop(c)),
        Some(UnfoldRefusal::Deep(c)) => Err(UnfoldAnswer::Deep(c)),
        Some(UnfoldRefusal::Long(c)) => Err(UnfoldAnswer::Long(c)),
        None => {
            let made = code_of(alloc, f)?;
            Ok(made)
        }
    }
}

/// The flat code alone.
pub fn unfold(alloc: Global, f: &Ifcl) -> Result<Flat, UnfoldAnswer>
    requires { ifcl_ok f.now ≡ true }
    ensures unrefused { IfOk result (λ flat. refusal_of f.now ≡ None) }
    ensures ok { IfOk result (λ flat. flat_ok flat ≡ true) }
    ensures means { IfOk result (λ flat. (site : Site) (p : Packet) (k : Kind) → flat_means flat site p k ≡ diagram_means f.now site p k) }
    ensures refused { IfErr result (λ e. Refuses e (refusal_of f.now)) }
{
    let (flat, _rules) = unfold_from(alloc, f)?;
    Ok(flat)
}
