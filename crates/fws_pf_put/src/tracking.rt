//! Whether configurations keep state.

ghost use Rattle.std.specs.Prelude.{◌≡◌, ◌||◌, not};
ghost use Rattle.std.specs.List.{list_all, list_any};
ghost use Rattle.fws_pf_print.specs.Printable.{skips_none};
ghost use Rattle.fws_pf_put.specs.Placed.{tracks};
ghost use Rattle.fws_pf_put_filter.specs.Filters.{asks_nothing, catches_all};

use fws_iv::Iv;
use fws_net::{Lit, Site};
use fws_pf::{PfConfig, PfRule, Way};

/// Whether the rule keeps state, if it passes packets.
fn keeps_state(rule: &PfRule) -> bool
    ensures { result ≡ (not rule.now.pass || rule.now.keep) }
{
    !rule.pass || rule.keep
}

/// Whether the condition has no literal.
fn asks_nothing(lits: &[Lit]) -> bool
    ensures { result ≡ asks_nothing lits.now }
{
    match lits {
        [] => true,
        [_, ..] => false,
    }
}

/// Whether every packet matches the rule, on both passes.
fn catches_all(rule: &PfRule) -> bool
    ensures { result ≡ catches_all rule.now }
{
    match rule.way {
        Way::Both => asks_nothing(rule.cond.lits()),
        Way::Inward => false,
        Way::Outward => false,
    }
}

/// Whether some rule is matched by every packet, on both passes.
fn some_catches_all(rules: &[PfRule]) -> bool
    ensures { result ≡ list_any catches_all rules.now }
{
    rules.iter().any(|rule| catches_all(rule))
}

/// Whether each rule that passes packets keeps state.
fn all_keep_state(rules: &[PfRule]) -> bool
    ensures { result ≡ list_all (λ rule. not rule.pass || rule.keep) rules.now }
{
    rules.iter().all(|rule| keeps_state(rule))
}

/// Whether no interface is skipped.
fn skips_none(parts: &[Iv]) -> bool
    ensures { result ≡ skips_none parts.now }
{
    match parts {
        [] => true,
        [_, ..] => false,
    }
}

/// Whether the configuration keeps state: no interface is skipped, some rule matches every packet on both passes, and
/// each rule that passes packets keeps state.
pub fn tracks(c: &PfConfig, _site: &Site) -> bool
    ensures { result ≡ tracks _site.now c.now }
{
    skips_none(c.skip.parts())
        && some_catches_all(c.filter.as_slice())
        && all_keep_state(c.filter.as_slice())
}
