//! Suggested texts, of which nothing is known: whether they do what the tables of a policy say.
//!
//! As in the commands, a function owns one configuration, code or pair of tables where it ends early, which keeps its proof short.

ghost use Rattle.std.specs.Prelude.{◌≡◌, true, IfOk, IfSome};
ghost use Rattle.fws_flat.specs.Soundness.{flat_ok};
ghost use Rattle.fws_ifcl.specs.Soundness.{ifcl_ok};
ghost use Rattle.fws_net.specs.Routes.{IsSound};
ghost use Rattle.fws_net.specs.SiteLaws.{IsOrderly};
ghost use Rattle.fws_top.specs.Codes.{Does, DoesRegularly, IsUnfolded};
ghost use Rattle.fws_top.specs.Judged.{HasText};
ghost use Rattle.fws_top.specs.Translations.{EmitsIn, GivesFates};
ghost use Rattle.fws_top.specs.Walked.{Walk};
ghost use Rattle.fws_tree.specs.Regular.{AreRegular};

use crate::lang::TargetLang;
use crate::language::Language;
use crate::noting::{Origin, evidence_of, with_notes};
use crate::source::Source;
use crate::tables::tables;
use fws_dead::{Compare, same};
use fws_flat::Flat;
use fws_ifcl::Ifcl;
use fws_net::{ReadAnswer, Site};
use fws_num::{Memory, Text};
use fws_tree::Tables;
use fws_unfold::{UnfoldAnswer, unfold};
use std::alloc::Global;

/// Whether a comparison says that both do the same.
fn is_same(found: &Compare) -> bool
    ensures { result ≡ true → found.now ≡ Compare.Same }
{
    match found {
        Compare::Same => true,
        Compare::Differ { .. } => false,
    }
}

/// Whether code gives every packet, new or established, the fate that the tables of a policy give it.
fn is_alike(alloc: Global, site: &Site, policy: &Tables, code: &Flat) -> Result<bool, Memory>
    requires sound { IsSound site.now }
    requires policy { AreRegular site.now policy.now }
    requires ok { flat_ok code.now ≡ true }
    requires regular { DoesRegularly code.now site.now }
    ensures { (walk : Walk) → Does code.now site.now walk → IfOk result (λ yes. yes ≡ true → GivesFates site.now policy.now walk) }
{
    let made = tables(alloc, site, code)?;
    let found = same(alloc, site, policy, &made)?;
    Ok(is_same(&found))
}

/// The code of a diagram, if its chains can be unfolded.
fn flat_of(alloc: Global, diagram: &Ifcl) -> Result<Option<Flat>, Memory>
    requires { ifcl_ok diagram.now ≡ true }
    ensures { IfOk result (λ code. IfSome code (IsUnfolded diagram.now)) }
{
    match unfold(alloc, diagram) {
        Ok(flat) => Ok(Some(flat)),
        Err(UnfoldAnswer::Loop(_)) => Ok(None),
        Err(UnfoldAnswer::Deep(_)) => Ok(None),
        Err(UnfoldAnswer::Long(_)) => Ok(None),
        Err(UnfoldAnswer::Memory) => Err(Memory),
    }
}

/// The code of a configuration that some text spells, if its chains can be unfolded.
fn code_of<L: Source>(
    alloc: Global,
    site: &Site,
    config: &L::Config,
) -> Result<Option<Flat>, Memory>
    requires sound { IsSound site.now }
    requires from_text { HasText (L.spelled site.now) config.now }
    ensures ok { IfOk result (λ code. IfSome code (λ flat. flat_ok flat ≡ true)) }
    ensures does { IfOk result (λ code. IfSome code (λ flat. Does flat site.now (L.walk config.now site.now))) }
{
    let diagram = L::to_ifcl(alloc, config, site)?;
    flat_of(alloc, &diagram)
}

/// Whether a configuration that some text spells can be unfolded and gives every packet the fate that the tables give it.
fn gives_fates<L: Source>(
    alloc: Global,
    site: &Site,
    policy: &Tables,
    config: &L::Config,
) -> Result<bool, Memory>
    requires sound { IsSound site.now }
    requires policy { AreRegular site.now policy.now }
    requires from_text { HasText (L.spelled site.now) config.now }
    ensures { IfOk result (λ yes. yes ≡ true → GivesFates site.now policy.now (L.walk config.now site.now)) }
{
    L::spelled_walks_are_regular();
    let code = code_of::<L>(alloc, site, config)?;
    match code {
        Some(flat) => is_alike(alloc, site, policy, &flat),
        None => Ok(false),
    }
}

/// Whether it keeps state where it accepts, too.
fn is_right<L: Source>(
    alloc: Global,
    site: &Site,
    policy: &Tables,
    config: &L::Config,
) -> Result<bool, Memory>
    requires sound { IsSound site.now }
    requires policy { AreRegular site.now policy.now }
    requires from_text { HasText (L.spelled site.now) config.now }
    ensures tracks { IfOk result (λ yes. yes ≡ true → L.tracks site.now config.now ≡ true) }
    ensures fates { IfOk result (λ yes. yes ≡ true → GivesFates site.now policy.now (L.walk config.now site.now)) }
{
    if L::tracks(config, site) {
        gives_fates::<L>(alloc, site, policy, config)
    } else {
        Ok(false)
    }
}

/// Whether a text spells such a configuration.
fn spells_it<L: Source>(
    alloc: Global,
    site: &Site,
    policy: &Tables,
    text: &[u8],
) -> Result<bool, Memory>
    requires sound { IsSound site.now }
    requires policy { AreRegular site.now policy.now }
    ensures { IfOk result (λ yes. yes ≡ true → EmitsIn L.spelled L.tracks L.walk site.now policy.now text.now) }
{
    match L::read(alloc, text, site) {
        Ok(config) => is_right::<L>(alloc, site, policy, &config),
        Err(ReadAnswer::Refused { .. }) => Ok(false),
        Err(ReadAnswer::Memory) => Err(Memory),
    }
}

/// The text, if it is right: it spells a configuration that keeps state where it accepts, can be unfolded, and gives every packet,
/// new or established, the fate that the tables of a policy give it.
pub(crate) fn checked<L: Source>(
    alloc: Global,
    site: &Site,
    policy: &Tables,
    text: Text,
) -> Result<Option<Text>, Memory>
    requires sound { IsSound site.now }
    requires policy { AreRegular site.now policy.now }
    ensures { IfOk result (λ found. IfSome found (EmitsIn L.spelled L.tracks L.walk site.now policy.now)) }
{
    let is_right = spells_it::<L>(alloc, site, policy, text.as_slice())?;
    if is_right { Ok(Some(text)) } else { Ok(None) }
}

/// The first suggestion that is right, if there is one, with notes of what its rules come from.
pub(crate) fn suggested<L: Language>(
    alloc: Global,
    site: &Site,
    policy: &Tables,
    hints: &Flat,
    target: TargetLang,
    origin: &Origin,
) -> Result<Option<Text>, Memory>
    requires orderly { IsOrderly site.now }
    requires sound { IsSound site.now }
    requires policy { AreRegular site.now policy.now }
    ensures { IfOk result (λ found. IfSome found (EmitsIn L.spelled L.tracks L.walk site.now policy.now)) }
{
    let texts = L::suggest(alloc, policy, site, hints)?;
    if texts.is_empty() {
        return Ok(None);
    }
    let evidence = evidence_of(alloc, site, policy, origin)?;
    for text in texts {
        let longer = with_notes::<L>(alloc, site, target, origin, &evidence, text)?;
        if let Some(right) = checked::<L>(alloc, site, policy, longer)? {
            return Ok(Some(right));
        }
    }
    Ok(None)
}
