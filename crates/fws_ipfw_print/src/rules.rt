//! Rules as they are printed.

ghost use Rattle.std.specs.Prelude.{◌≡◌, [], ◌∷◌, ◌++◌, OnOk};
ghost use Rattle.std.specs.Fmt.{decimal};
ghost use Rattle.fws_num.specs.Written.{ended, spaced};
ghost use Rattle.fws_ipfw.specs.Soundness.{is_check};
ghost use Rattle.fws_print.specs.Words.{behind_blanks};
ghost use Rattle.fws_ipfw_print.specs.PrintedText.{act_words, body_words, condition_words, keep_words, rule_words, tag_words};

use crate::tests::put_condition;
use fws_ipfw::{IpfwAct, IpfwRule, IpfwTag};
use fws_net::Site;
use fws_num::{Memory, Text};
use fws_print::{put_number, put_word};
use std::alloc::Global;

/// Whether it is a check-state rule.
pub fn is_check(act: IpfwAct) -> bool
    ensures { result ≡ is_check act }
{
    matches!(act, IpfwAct::Check)
}

/// Appends a word and a number.
fn put_numbered(out: &mut Text, word: &[u8], n: u32) -> Result<(), Memory>
    ensures { OnOk result (out.new ≡ out.old ++ behind_blanks (word.now ∷ decimal n ∷ [])) }
{
    put_word(out, word)?;
    put_number(out, n)?;
    Ok(())
}

/// Appends what a rule does.
fn put_act(out: &mut Text, act: IpfwAct) -> Result<(), Memory>
    ensures { OnOk result (out.new ≡ out.old ++ behind_blanks (act_words act)) }
{
    match act {
        IpfwAct::Allow => out.put(b" allow"),
        IpfwAct::Deny => out.put(b" deny"),
        IpfwAct::Count => out.put(b" count"),
        IpfwAct::Skip(n) => put_numbered(out, b"skipto", n),
        IpfwAct::Check => out.put(b" check-state"),
        IpfwAct::Nat(n) => put_numbered(out, b"nat", n),
    }
}

/// Appends a tag that is added.
fn put_tag(out: &mut Text, tag: IpfwTag) -> Result<(), Memory>
    ensures { OnOk result (out.new ≡ out.old ++ behind_blanks (tag_words tag)) }
{
    match tag {
        IpfwTag::Add(n) => put_numbered(out, b"tag", n),
        IpfwTag::Nothing | IpfwTag::Remove(_) => out.put(b""),
    }
}

/// Appends that a rule keeps state, if it does.
fn put_keep(out: &mut Text, keep: bool) -> Result<(), Memory>
    ensures { OnOk result (out.new ≡ out.old ++ behind_blanks (keep_words keep)) }
{
    if keep {
        out.put(b" keep-state")?;
    }
    Ok(())
}

/// Appends what stands behind an action: a tag, what the rule tests, and that it keeps state.
fn put_tested(out: &mut Text, alloc: Global, site: &Site, r: &IpfwRule) -> Result<(), Memory>
    ensures { OnOk result (out.new ≡ out.old
        ++ behind_blanks (tag_words r.now.tag ++ condition_words site.now r.now.cond ++ keep_words r.now.keep)) }
{
    put_tag(out, r.tag)?;
    put_condition(out, alloc, site, r.cond.lits())?;
    put_keep(out, r.keep)?;
    Ok(())
}

/// Appends a rule behind its number; `check-state` stands alone.
fn put_body(out: &mut Text, alloc: Global, site: &Site, r: &IpfwRule) -> Result<(), Memory>
    ensures { OnOk result (out.new ≡ out.old ++ behind_blanks (body_words site.now r.now)) }
{
    put_act(out, r.act)?;
    if !is_check(r.act) {
        put_tested(out, alloc, site, r)?;
    }
    Ok(())
}

/// Appends the line of a rule.
pub fn put_rule(out: &mut Text, alloc: Global, site: &Site, r: &IpfwRule) -> Result<(), Memory>
    ensures { OnOk result (out.new ≡ out.old ++ ended (spaced (rule_words site.now r.now) ∷ [])) }
{
    out.put(b"add")?;
    put_number(out, r.number)?;
    put_body(out, alloc, site, r)?;
    out.put(b"\n")?;
    Ok(())
}
