//! Lines of chains, rules and tables as they are printed.

ghost use Rattle.std.specs.Prelude.{◌≡◌, [], ◌∷◌, ◌++◌, map, OnOk};
ghost use Rattle.std.specs.List.{list_any};
ghost use Rattle.fws_net.specs.SiteSpelling.{lines_text};
ghost use Rattle.fws_ipt.specs.Walk.{is_table};
ghost use Rattle.fws_ipt_print.specs.PrintedText.{chain_line, chain_lines, policy_word, rule_line, rule_lines, table_lines, table_word};

use crate::acts::put_act;
use crate::tests::put_literals;
use fws_ipt::{IptChain, IptRule, IptTable};
use fws_net::Site;
use fws_num::{Memory, Text};
use fws_print::put_word;

/// Whether two tables are the same.
pub fn is_table(a: IptTable, b: IptTable) -> bool
    ensures { result ≡ is_table a b }
{
    match (a, b) {
        (IptTable::Filter, IptTable::Filter)
        | (IptTable::Nat, IptTable::Nat)
        | (IptTable::Mangle, IptTable::Mangle) => true,
        _ => false,
    }
}

/// Whether the table has a chain.
fn has_chain(table: IptTable, chains: &[IptChain]) -> bool
    ensures { result ≡ list_any (λ chain. is_table table chain.table) chains.now }
{
    chains.iter().any(|chain| is_table(table, chain.table))
}

/// Appends the line of a rule of the chain with this name.
fn put_rule(
    out: &mut Text,
    site: &Site,
    chains: &[IptChain],
    name: &[u8],
    rule: &IptRule,
) -> Result<(), Memory>
    ensures { OnOk result (out.new ≡ out.old ++ lines_text (rule_line site.now chains.now name.now rule.now ∷ [])) }
{
    out.put(b"-A")?;
    put_word(out, name)?;
    put_literals(out, site, rule.cond.lits())?;
    put_act(out, chains, rule.go)?;
    out.put(b"\n")?;
    Ok(())
}

/// Appends the lines of the rules of a chain.
fn put_rules(
    out: &mut Text,
    site: &Site,
    chains: &[IptChain],
    name: &[u8],
    rules: &[IptRule],
) -> Result<(), Memory>
    ensures { OnOk result (out.new ≡ out.old ++ lines_text (map (rule_line site.now chains.now name.now) rules.now)) }
{
    for rule in rules {
        put_rule(out, site, chains, name, rule)?;
    }
    Ok(())
}

/// Appends the lines of the rules of a chain, if it is one of the table.
fn put_rules_of(
    out: &mut Text,
    site: &Site,
    chains: &[IptChain],
    table: IptTable,
    chain: &IptChain,
) -> Result<(), Memory>
    ensures { OnOk result (out.new ≡ out.old ++ lines_text (rule_lines site.now chains.now table (chain.now ∷ []))) }
{
    if is_table(table, chain.table) {
        put_rules(
            out,
            site,
            chains,
            chain.name.as_slice(),
            chain.rules.as_slice(),
        )?;
    }
    Ok(())
}

/// Appends the lines of the rules of a table, chain by chain.
fn put_all_rules(
    out: &mut Text,
    site: &Site,
    chains: &[IptChain],
    table: IptTable,
) -> Result<(), Memory>
    ensures { OnOk result (out.new ≡ out.old ++ lines_text (rule_lines site.now chains.now table chains.now)) }
{
    for chain in chains {
        put_rules_of(out, site, chains, table, chain)?;
    }
    Ok(())
}

/// Appends the policy of a chain, behind a blank.
fn put_policy(out: &mut Text, policy: Option<bool>) -> Result<(), Memory>
    ensures { OnOk result (out.new ≡ out.old ++ 32 ∷ policy_word policy) }
{
    match policy {
        None => put_word(out, b"-"),
        Some(true) => put_word(out, b"ACCEPT"),
        Some(false) => put_word(out, b"DROP"),
    }
}

/// Appends the declaration of a chain.
fn put_chain(out: &mut Text, chain: &IptChain) -> Result<(), Memory>
    ensures { OnOk result (out.new ≡ out.old ++ lines_text (chain_line chain.now ∷ [])) }
{
    out.put(b":")?;
    out.put(chain.name.as_slice())?;
    put_policy(out, chain.policy)?;
    out.put(b" [0:0]\n")?;
    Ok(())
}

/// Appends the declaration of a chain, if it is one of the table.
fn put_chain_of(out: &mut Text, table: IptTable, chain: &IptChain) -> Result<(), Memory>
    ensures { OnOk result (out.new ≡ out.old ++ lines_text (chain_lines table (chain.now ∷ []))) }
{
    if is_table(table, chain.table) {
        put_chain(out, chain)?;
    }
    Ok(())
}

/// Appends the declarations of the chains of a table.
fn put_all_chains(out: &mut Text, table: IptTable, chains: &[IptChain]) -> Result<(), Memory>
    ensures { OnOk result (out.new ≡ out.old ++ lines_text (chain_lines table chains.now)) }
{
    for chain in chains {
        put_chain_of(out, table, chain)?;
    }
    Ok(())
}

/// Appends the line with a table's name.
fn put_opening(out: &mut Text, table: IptTable) -> Result<(), Memory>
    ensures { OnOk result (out.new ≡ out.old ++ lines_text ((table_word table ∷ []) ∷ [])) }
{
    match table {
        IptTable::Filter => out.put(b"*filter\n"),
        IptTable::Nat => out.put(b"*nat\n"),
        IptTable::Mangle => out.put(b"*mangle\n"),
    }
}

/// Appends a table, if it has chains.
pub fn put_table(
    out: &mut Text,
    site: &Site,
    chains: &[IptChain],
    table: IptTable,
) -> Result<(), Memory>
    ensures { OnOk result (out.new ≡ out.old ++ lines_text (table_lines site.now chains.now table)) }
{
    if has_chain(table, chains) {
        put_opening(out, table)?;
        put_all_chains(out, table, chains)?;
        put_all_rules(out, site, chains, table)?;
        out.put(b"COMMIT\n")?;
    }
    Ok(())
}
