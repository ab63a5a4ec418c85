//! Lists for packets that come in.

ghost use Rattle.std.specs.Prelude.{◌≡◌, ◌&&◌, not, true, false, ℕ, List, IfOk, OnOk};
ghost use Rattle.fws_box.specs.Sides.{IsWithin};
ghost use Rattle.fws_ios.specs.declared.config.IosEntry.{IosEntry};
ghost use Rattle.fws_net.specs.Points.{tops_of};
ghost use Rattle.fws_net.specs.Routes.{IsSound};
ghost use Rattle.fws_ios_put.specs.Blocks.{IsAhead, IsBack, IsDeniedBlock, IsFront, IsListOf, IsMarkedBlock};
ghost use Rattle.fws_ios_put.specs.Choices.{is_tcp, truth, AreAskable, IsAskable, NoneAlone, NoneDenied, HasTruth, LiesIn, LiesInForTcp};
ghost use Rattle.fws_print.specs.Appended.{Appends};

use crate::choices::Choices;
use crate::fixing::{is_somewhere, of_tcp};
use crate::truths::{negated, without};
use fws_ios::IosEntry;
use fws_ios_put_cover::put_cover;
use fws_ios_put_entries::{Act, state_entry};
use fws_ios_put_lists::put_list;
use fws_net::Site;
use fws_num::{Items, Memory};
use fws_tree::Tree;
use std::alloc::Global;

// Where packets of TCP are in the first set and not in the second one. Fails if memory runs out.
fn needed_of(
    alloc: Global,
    site: &Site,
    within: &Tree<bool>,
    excused: &Tree<bool>,
) -> Result<Tree<bool>, Memory>
    requires sound { IsSound site.now }
    requires within { IsAskable site.now within.now }
    requires excused { IsAskable site.now excused.now }
    ensures askable { IfOk result (λ t. IsAskable site.now t) }
    ensures value { IfOk result (HasTruth site.now (λ x. is_tcp x && (truth within.now.1 x && not (truth excused.now.1 x)))) }
{
    let wanted = without(alloc, site, within, excused)?;
    of_tcp(alloc, site, &wanted)
}

// Appends entries that permit packets of TCP with ACK or RST or deny them: all of these where the first tree is true, and none but
// those where the second one is. Fails if memory runs out.
fn put_needed(
    alloc: Global,
    entries: &mut Items<IosEntry>,
    site: &Site,
    needed: &Tree<bool>,
    within: &Tree<bool>,
    permit: bool,
) -> Result<(), Memory>
    requires sound { IsSound site.now }
    requires needed { IsAskable site.now needed.now }
    requires within { IsAskable site.now within.now }
    requires part { (x : List ℕ) → IsWithin (tops_of site.now) x → truth needed.now.1 x ≡ true → (is_tcp x && truth within.now.1 x) ≡ true }
    ensures { OnOk result (Appends entries.old entries.new (IsMarkedBlock site.now permit (truth within.now.1) (λ x. not (truth needed.now.1 x)))) }
{
    let around = of_tcp(alloc, site, within)?;
    let act = Act {
        permit,
        reflect: permit,
        established: true,
    };
    put_cover(alloc, entries, site, needed, &around, act)?;
    Ok(())
}

// Appends entries that permit packets of TCP with ACK or RST or deny them: none but those where the first tree is true, and all of
// these where the second one isn't. Fails if memory runs out.
fn put_marked(
    alloc: Global,
    entries: &mut Items<IosEntry>,
    site: &Site,
    within: &Tree<bool>,
    excused: &Tree<bool>,
    permit: bool,
) -> Result<(), Memory>
    requires sound { IsSound site.now }
    requires within { IsAskable site.now within.now }
    requires excused { IsAskable site.now excused.now }
    ensures { OnOk result (Appends entries.old entries.new (IsMarkedBlock site.now permit (truth within.now.1) (truth excused.now.1))) }
{
    let needed = needed_of(alloc, site, within, excused)?;
    put_needed(alloc, entries, site, &needed, within, permit)?;
    Ok(())
}

// Appends entries that deny packets of TCP with ACK or RST: none but those where the first tree is true, and all of these where the
// second one isn't true either. Fails if memory runs out.
fn put_outside(
    alloc: Global,
    entries: &mut Items<IosEntry>,
    site: &Site,
    outside: &Tree<bool>,
    plain: &Tree<bool>,
) -> Result<(), Memory>
    requires sound { IsSound site.now }
    requires outside { IsAskable site.now outside.now }
    requires plain { IsAskable site.now plain.now }
    ensures { OnOk result (Appends entries.old entries.new (IsMarkedBlock site.now false (truth outside.now.1) (λ x. not (truth plain.now.1 x)))) }
{
    let excused = negated(alloc, site, plain)?;
    put_marked(alloc, entries, site, outside, &excused, false)?;
    Ok(())
}

// Appends entries that deny packets of TCP with ACK or RST: none where the first tree is true, and all others where the second one
// is. Fails if memory runs out.
fn put_lacking(
    alloc: Global,
    entries: &mut Items<IosEntry>,
    site: &Site,
    acked: &Tree<bool>,
    plain: &Tree<bool>,
) -> Result<(), Memory>
    requires sound { IsSound site.now }
    requires acked { IsAskable site.now acked.now }
    requires plain { IsAskable site.now plain.now }
    ensures { OnOk result (Appends entries.old entries.new (IsMarkedBlock site.now false (λ x. not (truth acked.now.1 x)) (λ x. not (truth plain.now.1 x)))) }
{
    let outside = negated(alloc, site, acked)?;
    put_outside(alloc, entries, site, &outside, plain)?;
    Ok(())
}

// Appends entries that deny all packets where the tree isn't true. Fails if memory runs out.
fn put_denied(
    alloc: Global,
    entries: &mut Items<IosEntry>,
    site: &Site,
    tree: &Tree<bool>,
) -> Result<(), Memory>
    requires sound { IsSound site.now }
    requires tree { IsAskable site.now tree.now }
    ensures { OnOk result (Appends entries.old entries.new (IsDeniedBlock site.now (λ x. not (truth tree.now.1 x)))) }
{
    let none = negated(alloc, site, tree)?;
    let act = Act {
        permit: false,
        reflect: false,
        established: false,
    };
    put_cover(alloc, entries, site, &none, &none, act)?;
    Ok(())
}

// Appends the blocks that stand ahead of the entry for packets of connections. Fails if memory runs out.
fn put_ahead(
    alloc: Global,
    entries: &mut Items<IosEntry>,
    site: &Site,
    c: &Choices,
) -> Result<(), Memory>
    requires sound { IsSound site.now }
    requires askable { AreAskable site.now c.now }
    ensures { OnOk result (Appends entries.old entries.new (IsAhead site.now c.now)) }
{
    put_marked(alloc, entries, site, &c.acked_fresh, &c.known, true)?;
    put_denied(alloc, entries, site, &c.known)?;
    put_lacking(alloc, entries, site, &c.acked_known, &c.known)?;
    Ok(())
}

// Whether the first tree is true at some point where the second one isn't. Fails if memory runs out.
fn is_beyond(
    alloc: Global,
    site: &Site,
    tree: &Tree<bool>,
    other: &Tree<bool>,
) -> Result<bool, Memory>
    requires tree { IsAskable site.now tree.now }
    requires other { IsAskable site.now other.now }
    ensures { IfOk result (λ b. b ≡ false → LiesIn site.now tree.now.1 other.now.1) }
{
    let beyond = without(alloc, site, tree, other)?;
    is_somewhere(alloc, site, &beyond)
}

// Whether the tree isn't true at some point. Fails if memory runs out.
fn is_lacking(alloc: Global, site: &Site, tree: &Tree<bool>) -> Result<bool, Memory>
    requires { IsAskable site.now tree.now }
    ensures { IfOk result (λ b. b ≡ false → (x : List ℕ) → IsWithin (tops_of site.now) x → truth tree.now.1 x ≡ true) }
{
    let none = negated(alloc, site, tree)?;
    is_somewhere(alloc, site, &none)
}

// Whether the tree is true at some point of TCP. Fails if memory runs out.
fn is_for_tcp(alloc: Global, site: &Site, tree: &Tree<bool>) -> Result<bool, Memory>
    requires sound { IsSound site.now }
    requires tree { IsAskable site.now tree.now }
    ensures { IfOk result (λ b. b ≡ false → (x : List ℕ) → IsWithin (tops_of site.now) x → is_tcp x ≡ true → truth tree.now.1 x ≡ false) }
{
    let tcp = of_tcp(alloc, site, tree)?;
    is_somewhere(alloc, site, &tcp)
}

// Whether the first tree is true at some point of TCP where the second one isn't. Fails if memory runs out.
fn is_beyond_for_tcp(
    alloc: Global,
    site: &Site,
    tree: &Tree<bool>,
    other: &Tree<bool>,
) -> Result<bool, Memory>
    requires sound { IsSound site.now }
    requires tree { IsAskable site.now tree.now }
    requires other { IsAskable site.now other.now }
    ensures { IfOk result (λ b. b ≡ false → LiesInForTcp site.now tree.now.1 other.now.1) }
{
    let beyond = without(alloc, site, tree, other)?;
    is_for_tcp(alloc, site, &beyond)
}

// Whether the tree isn't true at some point of TCP. Fails if memory runs out.
fn is_lacking_for_tcp(alloc: Global, site: &Site, tree: &Tree<bool>) -> Result<bool, Memory>
    requires sound { IsSound site.now }
    requires tree { IsAskable site.now tree.now }
    ensures { IfOk result (λ b. b ≡ false → (x : List ℕ) → IsWithin (tops_of site.now) x → is_tcp x ≡ true → truth tree.now.1 x ≡ true) }
{
    let none = negated(alloc, site, tree)?;
    is_for_tcp(alloc, site, &none)
}

// Whether packets of connections are permitted that aren't as new ones. Fails if memory runs out.
fn some_alone(alloc: Global, site: &Site, c: &Choices) -> Result<bool, Memory>
    requires sound { IsSound site.now }
    requires askable { AreAskable site.now c.now }
    ensures { IfOk result (λ b. b ≡ false → NoneAlone site.now c.now) }
{
    if is_beyond(alloc, site, &c.known, &c.fresh)? {
        return Ok(true);
    }
    is_beyond_for_tcp(alloc, site, &c.acked_known, &c.acked_fresh)
}

// Whether packets are denied in all connections. Fails if memory runs out.
fn some_denied(alloc: Global, site: &Site, c: &Choices) -> Result<bool, Memory>
    requires sound { IsSound site.now }
    requires askable { AreAskable site.now c.now }
    ensures { IfOk result (λ b. b ≡ false → NoneDenied site.now c.now) }
{
    if is_lacking(alloc, site, &c.known)? {
        return Ok(true);
    }
    is_lacking_for_tcp(alloc, site, &c.acked_known)
}

// Appends what stands ahead of the entries for new packets. Fails if memory runs out.
fn put_front(
    alloc: Global,
    entries: &mut Items<IosEntry>,
    site: &Site,
    c: &Choices,
) -> Result<(), Memory>
    requires sound { IsSound site.now }
    requires askable { AreAskable site.now c.now }
    ensures { OnOk result (Appends entries.old entries.new (IsFront site.now c.now)) }
{
    if !some_alone(alloc, site, c)? {
        return Ok(());
    }
    if !some_denied(alloc, site, c)? {
        entries.put(state_entry(alloc)?)?;
        return Ok(());
    }
    put_ahead(alloc, entries, site, c)?;
    entries.put(state_entry(alloc)?)?;
    Ok(())
}

// Appends the entries for new packets. Fails if memory runs out.
fn put_back(
    alloc: Global,
    entries: &mut Items<IosEntry>,
    site: &Site,
    c: &Choices,
) -> Result<(), Memory>
    requires sound { IsSound site.now }
    requires askable { AreAskable site.now c.now }
    ensures { OnOk result (Appends entries.old entries.new (IsBack site.now c.now)) }
{
    put_marked(alloc, entries, site, &c.acked_fresh, &c.fresh, true)?;
    put_lacking(alloc, entries, site, &c.acked_fresh, &c.fresh)?;
    put_list(alloc, entries, site, &c.fresh, true)?;
    Ok(())
}

/// The entries of the list that permits what the choices say. Fails if memory runs out.
pub(crate) fn list_of(alloc: Global, site: &Site, c: &Choices) -> Result<Items<IosEntry>, Memory>
    requires sound { IsSound site.now }
    requires askable { AreAskable site.now c.now }
    ensures { IfOk result (IsListOf site.now c.now) }
{
    let mut entries = Items::new(alloc);
    put_front(alloc, &mut entries, site, c)?;
    put_back(alloc, &mut entries, site, c)?;
    Ok(entries)
}
