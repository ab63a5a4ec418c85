//! Acts of rules as they are printed.

ghost use Rattle.std.specs.Prelude.{◌≡◌, [], ◌∷◌, ◌++◌, codes, OnOk};
ghost use Rattle.fws_print.specs.Words.{behind_blanks};
ghost use Rattle.fws_ipt_print.specs.PrintedText.{act_words, chain_name, end_word, mark_word};

use crate::numbers::put_mark;
use fws_ipt::{IptChain, IptGo};
use fws_net::End;
use fws_num::{Memory, Text, put_dec, put_quad};
use fws_print::{put_network, put_word};

/// The name of the chain with this number.
fn chain_name(chains: &[IptChain], c: u32) -> &[u8]
    ensures { result.now ≡ chain_name chains.now c }
{
    match chains.get(c as usize) {
        Some(chain) => chain.name.as_slice(),
        None => b"",
    }
}

/// Appends an address, and the port behind a colon if there is one.
fn put_end(out: &mut Text, e: End) -> Result<(), Memory>
    ensures { OnOk result (out.new ≡ out.old ++ end_word e) }
{
    put_quad(out, e.addr)?;
    if let Some(port) = e.port {
        out.put(b":")?;
        put_dec(out, u64::from(port))?;
    }
    Ok(())
}

/// Appends the act that goes to a chain.
fn put_goto(out: &mut Text, chains: &[IptChain], c: u32) -> Result<(), Memory>
    ensures { OnOk result (out.new ≡ out.old ++ behind_blanks (codes "-g" ∷ chain_name chains.now c ∷ [])) }
{
    put_word(out, b"-g")?;
    put_word(out, chain_name(chains, c))?;
    Ok(())
}

/// Appends the act that sets a mark.
fn put_marking(out: &mut Text, v: u32) -> Result<(), Memory>
    ensures { OnOk result (out.new ≡ out.old
        ++ behind_blanks (codes "-j" ∷ codes "MARK" ∷ codes "--set-xmark" ∷ (mark_word v ++ codes "/0xffffffff") ∷ [])) }
{
    out.put(b" -j MARK --set-xmark ")?;
    put_mark(out, v)?;
    out.put(b"/0xffffffff")?;
    Ok(())
}

/// Appends an act that writes an end: the target, its option and the end.
fn put_writing(out: &mut Text, target: &[u8], option: &[u8], e: End) -> Result<(), Memory>
    ensures { OnOk result (out.new ≡ out.old ++ behind_blanks (codes "-j" ∷ target.now ∷ option.now ∷ end_word e ∷ [])) }
{
    put_word(out, b"-j")?;
    put_word(out, target)?;
    put_word(out, option)?;
    out.put(b" ")?;
    put_end(out, e)?;
    Ok(())
}

/// Appends the words of an act, each behind a blank.
pub fn put_act(out: &mut Text, chains: &[IptChain], go: IptGo) -> Result<(), Memory>
    ensures { OnOk result (out.new ≡ out.old ++ behind_blanks (act_words chains.now go)) }
{
    match go {
        IptGo::Accept => out.put(b" -j ACCEPT"),
        IptGo::Drop => out.put(b" -j DROP"),
        IptGo::Goto(c) => put_goto(out, chains, c),
        IptGo::Mark(v) => put_marking(out, v),
        IptGo::Source(e) => put_writing(out, b"SNAT", b"--to-source", e),
        IptGo::Dest(e) => put_writing(out, b"DNAT", b"--to-destination", e),
        IptGo::Netmap(net) => {
            out.put(b" -j NETMAP --to")?;
            put_network(out, net.addr, net.len)
        }
        IptGo::Return | IptGo::Next | IptGo::Jump(_) | IptGo::Masquerade | IptGo::Redirect(_) =>
            out.put(b""),
    }
}
