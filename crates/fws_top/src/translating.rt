//! What code does, in another language.

ghost use Rattle.std.specs.Prelude.{◌≡◌, true, IfOk};
ghost use Rattle.fws_flat.specs.Soundness.{flat_ok};
ghost use Rattle.fws_net.specs.Routes.{IsSound};
ghost use Rattle.fws_net.specs.SiteLaws.{IsOrderly};
ghost use Rattle.fws_top.specs.Codes.{Does, DoesRegularly};
ghost use Rattle.fws_top.specs.Translations.{EmitsIn, GivesFates, IsPlacement, IsPlacementBy, IsTranslation};
ghost use Rattle.fws_top.specs.Walked.{Walk};
ghost use Rattle.fws_tree.specs.Regular.{AreRegular};

use crate::answer::Answer;
use crate::ios::Ios;
use crate::ipfw::Ipfw;
use crate::iptables::Iptables;
use crate::lang::TargetLang;
use crate::language::Language;
use crate::lines::breach_line;
use crate::noting::{Origin, target_lang};
use crate::pf::Pf;
use crate::status::Status;
use crate::suggesting::{checked, suggested};
use crate::tables::tables;
use fws_flat::Flat;
use fws_net::Site;
use fws_notes::headed;
use fws_num::{Memory, Text};
use fws_place::PlaceAnswer;
use fws_tree::Tables;
use std::alloc::Global;

/// The longest text that is checked once more with what doesn't carry over in its head.
const MOST_HEADED: usize = 1 << 16;

/// The text with what doesn't carry over in its head, where it is short and is right with it, and else the text itself.
fn with_losses<L: Language>(
    alloc: Global,
    site: &Site,
    tables: &Tables,
    target: TargetLang,
    origin: &Origin,
    text: Text,
) -> Result<Text, Memory>
    requires sound { IsSound site.now }
    requires regular { AreRegular site.now tables.now }
    requires right { EmitsIn L.spelled L.tracks L.walk site.now tables.now text }
    ensures { IfOk result (EmitsIn L.spelled L.tracks L.walk site.now tables.now) }
{
    if text.as_slice().len() > MOST_HEADED {
        return Ok(text);
    }
    let Some(longer) = headed(alloc, target_lang(target), text.as_slice(), &origin.losses)? else {
        return Ok(text);
    };
    match checked::<L>(alloc, site, tables, longer)? {
        Some(right) => Ok(right),
        None => Ok(text),
    }
}

/// The text of a configuration that tables have.
fn printed<L: Language>(
    alloc: Global,
    site: &Site,
    tables: &Tables,
    config: &L::Config,
    target: TargetLang,
    origin: &Origin,
) -> Result<Text, Memory>
    requires orderly { IsOrderly site.now }
    requires sound { IsSound site.now }
    requires regular { AreRegular site.now tables.now }
    requires printable { L.printable site.now config.now ≡ true }
    requires tracks { L.tracks site.now config.now ≡ true }
    requires fates { GivesFates site.now tables.now (L.walk config.now site.now) }
    ensures { IfOk result (EmitsIn L.spelled L.tracks L.walk site.now tables.now) }
{
    let text = L::print(alloc, config, site)?;
    with_losses::<L>(alloc, site, tables, target, origin, text)
}

/// The text that is emitted where tables have a configuration: the first suggestion that is right, else that of the configuration.
fn emitted<L: Language>(
    alloc: Global,
    site: &Site,
    tables: &Tables,
    config: &L::Config,
    hints: &Flat,
    target: TargetLang,
    origin: &Origin,
) -> Result<Text, Memory>
    requires orderly { IsOrderly site.now }
    requires sound { IsSound site.now }
    requires regular { AreRegular site.now tables.now }
    requires printable { L.printable site.now config.now ≡ true }
    requires tracks { L.tracks site.now config.now ≡ true }
    requires fates { GivesFates site.now tables.now (L.walk config.now site.now) }
    ensures { IfOk result (EmitsIn L.spelled L.tracks L.walk site.now tables.now) }
{
    match suggested::<L>(alloc, site, tables, hints, target, origin)? {
        Some(text) => Ok(text),
        None => printed::<L>(alloc, site, tables, config, target, origin),
    }
}

/// The text of tables in a language, or the line that says which packets show why its system can't hold them. The hints
/// are code that does what the tables say.
fn placed<L: Language>(
    alloc: Global,
    target: TargetLang,
    site: &Site,
    tables: &Tables,
    hints: &Flat,
    origin: &Origin,
) -> Result<Answer, Memory>
    requires orderly { IsOrderly site.now }
    requires sound { IsSound site.now }
    requires regular { AreRegular site.now tables.now }
    ensures { IfOk result (λ a. IsPlacementBy L.system (EmitsIn L.spelled L.tracks L.walk site.now tables.now) target site.now tables.now a.status a.text) }
{
    match L::place(alloc, tables, site) {
        Ok(config) => Ok(Answer {
            status: Status::Ok,
            text: emitted::<L>(alloc, site, tables, &config, hints, target, origin)?,
        }),
        Err(PlaceAnswer::Unfit(breach)) => Ok(Answer {
            status: Status::NotPlaceable,
            text: breach_line(alloc, target, site, &breach)?,
        }),
        Err(PlaceAnswer::Memory) => Err(Memory),
    }
}

/// The text of tables in the language of this name, or that line.
fn placed_in(
    alloc: Global,
    target: TargetLang,
    site: &Site,
    tables: &Tables,
    hints: &Flat,
    origin: &Origin,
) -> Result<Answer, Memory>
    requires orderly { IsOrderly site.now }
    requires sound { IsSound site.now }
    requires regular { AreRegular site.now tables.now }
    ensures { IfOk result (λ a. IsPlacement target site.now tables.now a.status a.text) }
{
    match target {
        TargetLang::Iptables => placed::<Iptables>(alloc, target, site, tables, hints, origin),
        TargetLang::Ipfw => placed::<Ipfw>(alloc, target, site, tables, hints, origin),
        TargetLang::Pf => placed::<Pf>(alloc, target, site, tables, hints, origin),
        TargetLang::Ios => placed::<Ios>(alloc, target, site, tables, hints, origin),
    }
}

/// What code does, as a text in the language of this name, or that line.
pub(crate) fn translated(
    alloc: Global,
    target: TargetLang,
    site: &Site,
    code: &Flat,
    origin: &Origin,
) -> Result<Answer, Memory>
    requires orderly { IsOrderly site.now }
    requires sound { IsSound site.now }
    requires ok { flat_ok code.now ≡ true }
    requires regular { DoesRegularly code.now site.now }
    ensures { (walk : Walk) → Does code.now site.now walk → IfOk result (λ a. IsTranslation target site.now walk a.status a.text) }
{
    let tables = tables(alloc, site, code)?;
    placed_in(alloc, target, site, &tables, code, origin)
}
