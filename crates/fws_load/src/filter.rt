//! The text of a filter of iptables.

ghost use Rattle.std.specs.Prelude.{◌≡◌, ◌≤◌, ◌<◌, ◌++◌, OnOk, IfOk};
ghost use Rattle.std.specs.List.{flat_map, range_with_len};
ghost use Rattle.fws_load.specs.Load.{numbered, rule_line, filter_text};

use fws_num::{Memory, Text, put_dec};
use std::alloc::Global;

/// Appends a front and a number.
fn put_numbered(out: &mut Text, front: &[u8], n: u32) -> Result<(), Memory>
    ensures { OnOk result (out.new ≡ out.old ++ numbered front.now n) }
{
    out.put(front)?;
    put_dec(out, u64::from(n))?;
    Ok(())
}

/// Appends the line of the rule with this number.
fn put_rule(out: &mut Text, k: u32) -> Result<(), Memory>
    requires { k < 4000 }
    ensures { OnOk result (out.new ≡ out.old ++ rule_line k) }
{
    put_numbered(out, b"-A FORWARD -s 10.", k / 256)?;
    put_numbered(out, b".", k % 256)?;
    put_numbered(out, b".0/24 -d 172.16.", 7 * k % 256)?;
    put_numbered(out, b".0/24 -p tcp -m tcp --dport ", 1000 + k)?;
    out.put(b" -j ACCEPT\n")?;
    Ok(())
}

/// Appends the lines of the rules with numbers below this one.
fn put_rules(out: &mut Text, n: u32) -> Result<(), Memory>
    requires { n ≤ 4000 }
    ensures { OnOk result (out.new ≡ out.old ++ flat_map rule_line (range_with_len 0 n)) }
{
    for k in 0..n {
        put_rule(out, k)?;
    }
    Ok(())
}

/// The text of a filter that forwards packets of connections, and of new ones just those that its rules accept, as many as this
/// number from 1 to 4000. Fails if memory runs out.
#[tactic(auto, unfolding(crate::specs::Load::filter_text))]
pub fn load_text(alloc: Global, n: u32) -> Result<Text, Memory>
    requires least { 1 ≤ n }
    requires most { n ≤ 4000 }
    ensures { IfOk result (λ text. text ≡ filter_text n) }
{
    let mut out = Text::new(alloc);
    out.put(b"*filter\n:INPUT ACCEPT [0:0]\n:FORWARD DROP [0:0]\n:OUTPUT ACCEPT [0:0]\n")?;
    out.put(b"-A FORWARD -m state --state RELATED,ESTABLISHED -j ACCEPT\n")?;
    put_rules(&mut out, n)?;
    out.put(b"COMMIT\n")?;
    Ok(out)
}
