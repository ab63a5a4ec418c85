//! Choices that are made of what tables tell of packets.

ghost use Rattle.std.specs.Prelude.{◌≡◌, ◌&&◌, ◌||◌, ◌+◌, ◌≤◌, length, IfOk};
ghost use Rattle.fws_net.specs.Points.{tops_of};
ghost use Rattle.fws_net.specs.Routes.{IsSound};
ghost use Rattle.fws_tree_seen.specs.declared.seen.Seen.TheVariants.{Entered};
ghost use Rattle.fws_tree_seen.specs.Shown.{IsTold};
ghost use Rattle.fws_ios_put.specs.Choices.{framed, is_tcp, truth, AreAskable, AreMadeOf, IsAskable, HasTruth, is_acked_stray, acked_truth};

use crate::choices::Choices;
use crate::fixing::{fixed, of_strays, of_tcp};
use crate::truths::{either, without};
use fws_net::Site;
use fws_num::Memory;
use fws_tree::Tree;
use std::alloc::Global;

// Where packets that are lost where they arrive are known with ACK alone. Fails if memory runs out.
fn known_strays(
    alloc: Global,
    site: &Site,
    acked_known: &Tree<bool>,
    known: &Tree<bool>,
) -> Result<Tree<bool>, Memory>
    requires sound { IsSound site.now }
    requires acked_known { IsAskable site.now acked_known.now }
    requires known { IsAskable site.now known.now }
    ensures askable { IfOk result (λ t. IsAskable site.now t) }
    ensures value { IfOk result (HasTruth site.now (λ x. is_acked_stray site.now acked_known.now.1 known.now.1 x)) }
{
    let alone = without(alloc, site, acked_known, known)?;
    of_strays(alloc, site, &alone)
}

// Where those are packets of TCP. Fails if memory runs out.
fn tcp_strays(
    alloc: Global,
    site: &Site,
    acked_known: &Tree<bool>,
    known: &Tree<bool>,
) -> Result<Tree<bool>, Memory>
    requires sound { IsSound site.now }
    requires acked_known { IsAskable site.now acked_known.now }
    requires known { IsAskable site.now known.now }
    ensures askable { IfOk result (λ t. IsAskable site.now t) }
    ensures value { IfOk result (HasTruth site.now (λ x. is_tcp x && is_acked_stray site.now acked_known.now.1 known.now.1 x)) }
{
    let strays = known_strays(alloc, site, acked_known, known)?;
    of_tcp(alloc, site, &strays)
}

// Where new packets with ACK may be permitted: besides where they are, also where they are lost and are known with ACK alone. Fails
// if memory runs out.
fn with_strays(
    alloc: Global,
    site: &Site,
    own: &Tree<bool>,
    acked_known: &Tree<bool>,
    known: &Tree<bool>,
) -> Result<Tree<bool>, Memory>
    requires sound { IsSound site.now }
    requires own { IsAskable site.now own.now }
    requires acked_known { IsAskable site.now acked_known.now }
    requires known { IsAskable site.now known.now }
    ensures askable { IfOk result (λ t. IsAskable site.now t) }
    ensures value { IfOk result (HasTruth site.now (λ x. truth own.now.1 x || (is_tcp x && is_acked_stray site.now acked_known.now.1 known.now.1 x))) }
{
    let strays = tcp_strays(alloc, site, acked_known, known)?;
    either(alloc, site, own, &strays)
}

// Where packets with ACK that come in by an entry may be permitted as new ones, by what trees tell of new packets and of those of
// connections. Fails if memory runs out.
fn acked_fresh(
    alloc: Global,
    site: &Site,
    new: &Tree<bool>,
    acked_known: &Tree<bool>,
    known: &Tree<bool>,
    entry: u8,
) -> Result<Tree<bool>, Memory>
    requires sound { IsSound site.now }
    requires tops { new.now.0 ≡ tops_of site.now }
    requires told { IsTold Entered (tops_of site.now) new.now.1 }
    requires acked_known { IsAskable site.now acked_known.now }
    requires known { IsAskable site.now known.now }
    requires entry { entry ≤ length site.now.faces + 1 }
    ensures askable { IfOk result (λ t. IsAskable site.now t) }
    ensures value { IfOk result (HasTruth site.now (acked_truth site.now new.now.1 acked_known.now.1 known.now.1 entry)) }
{
    let own = fixed(alloc, site, new, entry, 16)?;
    with_strays(alloc, site, &own, acked_known, known)
}

// Which packets that come in by an entry are permitted in some connection, without flags and with ACK, by what a tree tells of
// those. Fails if memory runs out.
fn known_kinds(
    alloc: Global,
    site: &Site,
    known: &Tree<bool>,
    entry: u8,
) -> Result<(Tree<bool>, Tree<bool>), Memory>
    requires sound { IsSound site.now }
    requires tops { known.now.0 ≡ tops_of site.now }
    requires told { IsTold Entered (tops_of site.now) known.now.1 }
    requires entry { entry ≤ length site.now.faces + 1 }
    ensures askable { IfOk result (λ kinds. IsAskable site.now kinds.0) }
    ensures acked_askable { IfOk result (λ kinds. IsAskable site.now kinds.1) }
    ensures value { IfOk result (λ kinds. HasTruth site.now (λ x. truth known.now.1 (framed entry 0 x)) kinds.0) }
    ensures acked_value { IfOk result (λ kinds. HasTruth site.now (λ x. truth known.now.1 (framed entry 16 x)) kinds.1) }
{
    let plain = fixed(alloc, site, known, entry, 0)?;
    let acked = fixed(alloc, site, known, entry, 16)?;
    Ok((plain, acked))
}

// Which of them are permitted as new ones, by what a tree tells of those. Fails if memory runs out.
fn fresh_kinds(
    alloc: Global,
    site: &Site,
    new: &Tree<bool>,
    acked_known: &Tree<bool>,
    known: &Tree<bool>,
    entry: u8,
) -> Result<(Tree<bool>, Tree<bool>), Memory>
    requires sound { IsSound site.now }
    requires tops { new.now.0 ≡ tops_of site.now }
    requires told { IsTold Entered (tops_of site.now) new.now.1 }
    requires acked_known { IsAskable site.now acked_known.now }
    requires known { IsAskable site.now known.now }
    requires entry { entry ≤ length site.now.faces + 1 }
    ensures askable { IfOk result (λ kinds. IsAskable site.now kinds.0) }
    ensures acked_askable { IfOk result (λ kinds. IsAskable site.now kinds.1) }
    ensures value { IfOk result (λ kinds. HasTruth site.now (λ x. truth new.now.1 (framed entry 0 x)) kinds.0) }
    ensures acked_value { IfOk result (λ kinds. HasTruth site.now (acked_truth site.now new.now.1 acked_known.now.1 known.now.1 entry) kinds.1) }
{
    let plain = fixed(alloc, site, new, entry, 0)?;
    let acked = acked_fresh(alloc, site, new, acked_known, known, entry)?;
    Ok((plain, acked))
}

// The choices of these kinds of packets.
fn chosen(fresh: (Tree<bool>, Tree<bool>), known: (Tree<bool>, Tree<bool>)) -> Choices
    ensures { result ≡ record { fresh = fresh.0; known = known.0; acked_fresh = fresh.1; acked_known = known.1 } }
{
    Choices {
        fresh: fresh.0,
        known: known.0,
        acked_fresh: fresh.1,
        acked_known: known.1,
    }
}

// Trees that aren't wanted any more.
fn dismiss(_kinds: (Tree<bool>, Tree<bool>)) {}

/// The choices of the packets that come in by an entry, by what trees tell of new packets and of those that are accepted in some
/// connection. Fails if memory runs out.
pub(crate) fn choices_of(
    alloc: Global,
    site: &Site,
    new: &Tree<bool>,
    known: &Tree<bool>,
    entry: u8,
) -> Result<Choices, Memory>
    requires sound { IsSound site.now }
    requires new_tops { new.now.0 ≡ tops_of site.now }
    requires known_tops { known.now.0 ≡ tops_of site.now }
    requires new_told { IsTold Entered (tops_of site.now) new.now.1 }
    requires known_told { IsTold Entered (tops_of site.now) known.now.1 }
    requires entry { entry ≤ length site.now.faces + 1 }
    ensures askable { IfOk result (λ c. AreAskable site.now c) }
    ensures made { IfOk result (λ c. AreMadeOf site.now new.now.1 known.now.1 entry c) }
{
    let kinds = known_kinds(alloc, site, known, entry)?;
    match fresh_kinds(alloc, site, new, &kinds.1, &kinds.0, entry) {
        Ok(fresh) => Ok(chosen(fresh, kinds)),
        Err(fault) => {
            dismiss(kinds);
            Err(fault)
        }
    }
}
