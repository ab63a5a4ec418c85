//! Which instructions some packet uses.

ghost use Rattle.std.specs.Prelude.{◌≡◌, ℕ, Some, true, false, length, slice_get, IfOk};
ghost use Rattle.fws_flat.specs.Soundness.{flat_ok};
ghost use Rattle.fws_net.specs.Routes.{IsSound};
ghost use Rattle.fws_box_conditions.specs.Ways.{AreWaysOf};
ghost use Rattle.fws_exec.specs.Reaching.{AreReached, IsReached, IsUnreached};

use crate::execution::executed;
use crate::idle::without_idle_tags;
use crate::sheet::Sheet;
use crate::stages::Purpose;
use fws_box::whole_sides;
use fws_box_conditions::Ways;
use fws_flat::{Flat, Ins, Part};
use fws_net::{Site, State, tops};
use fws_num::Memory;
use std::alloc::Global;
use std::mem;

/// The classes of all packets behind their whole way along these parts, with what was found of uses on this way.
fn reached(
    alloc: Global,
    purpose: &Purpose<'_>,
    arrive: &[Part],
    deliver: &[Part],
    forward: &[Part],
    send: &[Part],
) -> Result<Sheet, Memory>
    requires sound { IsSound purpose.now.site.now }
    requires ways { AreWaysOf purpose.now.site.now purpose.now.ways.now }
    requires ok { flat_ok (record { code = purpose.now.code.now; arrive = arrive.now; deliver = deliver.now; forward = forward.now; send = send.now }) ≡ true }
    ensures count { IfOk result (λ s. length s.reached.items ≡ length purpose.now.code.now) }
    ensures reached { IfOk result (λ s. (n : ℕ) → slice_get s.reached.items n ≡ Some true → IsReached (record { code = purpose.now.code.now; arrive = arrive.now; deliver = deliver.now; forward = forward.now; send = send.now }) purpose.now.site.now purpose.now.state n) }
    ensures unreached { IfOk result (λ s. (n : ℕ) → slice_get s.reached.items n ≡ Some false → IsUnreached (record { code = purpose.now.code.now; arrive = arrive.now; deliver = deliver.now; forward = forward.now; send = send.now }) purpose.now.site.now purpose.now.state n) }
{
    let sides = whole_sides(alloc, &tops(purpose.site))?;
    let sheet = executed(alloc, purpose, &sides, true, arrive, deliver, forward, send)?;
    Ok(sheet)
}

/// For each instruction of the code whether some packet of the site uses it, where this code stands in the place of that of `f`.
fn reach_code(
    alloc: Global,
    code: &[Ins],
    f: &Flat,
    site: &Site,
    state: State,
) -> Result<Vec<bool>, Memory>
    requires sound { IsSound site.now }
    requires ok { flat_ok (record f.now { code = code.now }) ≡ true }
    ensures { IfOk result (λ answers. AreReached (record f.now { code = code.now }) site.now state answers.items) }
{
    let ways = Ways::of_site(alloc, site)?;
    let purpose = Purpose {
        site,
        ways: &ways,
        state,
        code,
    };
    let mut sheet = reached(
        alloc,
        &purpose,
        f.arrive.as_slice(),
        f.deliver.as_slice(),
        f.forward.as_slice(),
        f.send.as_slice(),
    )?;
    let reached = mem::replace(&mut sheet.reached, Vec::new(alloc));
    Ok(reached)
}

/// For each instruction of the code whether some packet of the site uses it: whether the packet's walk comes to it and its
/// condition holds there. The packets are new ones, or those of tracked connections. Fails if memory runs out.
///
/// The work is that of executing the code, and of asking for the points of each instruction until one is found.
pub fn reach(alloc: Global, f: &Flat, site: &Site, state: State) -> Result<Vec<bool>, Memory>
    requires sound { IsSound site.now }
    requires ok { flat_ok f.now ≡ true }
    ensures { IfOk result (λ answers. AreReached f.now site.now state answers.items) }
{
    match without_idle_tags(alloc, f)? {
        Some(code) => {
            let reached = reach_code(alloc, code.as_slice(), f, site, state)?;
            Ok(reached)
        }
        None => reach_code(alloc, f.code.as_slice(), f, site, state),
    }
}
