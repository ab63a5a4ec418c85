//! Filter rules as they are printed.

ghost use Rattle.std.specs.Prelude.{◌≡◌, [], ◌∷◌, ◌++◌, true, OnOk};
ghost use Rattle.fws_num.specs.Written.{ended, spaced};
ghost use Rattle.fws_print.specs.Words.{behind_blanks};
ghost use Rattle.fws_pf_print.specs.PrintedText.{action_word, front_words, options_words, rule_lines, rule_words, state_words, tag_words, way_words};

use crate::conditions::tests_flags;
use crate::tests::{put_front, put_options, put_tag};
use fws_net::{Lit, Site};
use fws_num::{Memory, Text};
use fws_pf::{PfRule, Way};

/// Appends what a rule does.
fn put_action(out: &mut Text, pass: bool) -> Result<(), Memory>
    ensures { OnOk result (out.new ≡ out.old ++ action_word pass) }
{
    if pass {
        out.put(b"pass")
    } else {
        out.put(b"block")
    }
}

/// Appends on which pass a rule is met, if not on both.
fn put_way(out: &mut Text, way: Way) -> Result<(), Memory>
    ensures { OnOk result (out.new ≡ out.old ++ behind_blanks (way_words way)) }
{
    match way {
        Way::Both => out.put(b""),
        Way::Inward => out.put(b" in"),
        Way::Outward => out.put(b" out"),
    }
}

/// Appends that a rule passes packets with any flags, unless it asks for flags, and keeps state.
fn put_kept(out: &mut Text, cond: &[Lit]) -> Result<(), Memory>
    ensures { OnOk result (out.new ≡ out.old ++ behind_blanks (state_words true cond.now)) }
{
    if tests_flags(cond) {
        out.put(b" keep state")
    } else {
        out.put(b" flags any keep state")
    }
}

/// Appends what a rule says of flags and state.
fn put_state(out: &mut Text, pass: bool, cond: &[Lit]) -> Result<(), Memory>
    ensures { OnOk result (out.new ≡ out.old ++ behind_blanks (state_words pass cond.now)) }
{
    if pass {
        put_kept(out, cond)
    } else {
        out.put(b"")
    }
}

/// Appends a rule behind its action.
fn put_body(out: &mut Text, site: &Site, r: &PfRule) -> Result<(), Memory>
    ensures { OnOk result (out.new ≡ out.old
        ++ behind_blanks (way_words r.now.way ++ (front_words site.now r.now.cond ++ (options_words r.now.cond ++ (tag_words r.now.tag ++ state_words r.now.pass r.now.cond))))) }
{
    put_way(out, r.way)?;
    put_front(out, site, r.cond.lits())?;
    put_options(out, r.cond.lits())?;
    put_tag(out, r.tag)?;
    put_state(out, r.pass, r.cond.lits())?;
    Ok(())
}

/// Appends the line of a rule.
fn put_rule(out: &mut Text, site: &Site, r: &PfRule) -> Result<(), Memory>
    ensures { OnOk result (out.new ≡ out.old ++ ended (spaced (rule_words site.now r.now) ∷ [])) }
{
    put_action(out, r.pass)?;
    put_body(out, site, r)?;
    out.put(b"\n")?;
    Ok(())
}

/// Appends the lines of rules.
pub fn put_rules(out: &mut Text, site: &Site, rules: &[PfRule]) -> Result<(), Memory>
    ensures { OnOk result (out.new ≡ out.old ++ ended (rule_lines site.now rules.now)) }
{
    for r in rules {
        put_rule(out, site, r)?;
    }
    Ok(())
}
