//! Instances of address translation as they are printed.

ghost use Rattle.std.specs.Prelude.{◌≡◌, [], ◌∷◌, ◌++◌, map, codes, OnOk};
ghost use Rattle.std.specs.List.{flat_map};
ghost use Rattle.fws_num.specs.Numbers.{dotted};
ghost use Rattle.fws_num.specs.Written.{ended, spaced};
ghost use Rattle.fws_print.specs.Words.{behind_blanks, protocol_name};
ghost use Rattle.fws_ipfw_print.specs.PrintedText.{end_word, nat_lines, nat_words, redirect_words};

use fws_ipfw::{IpfwNat, Redirect};
use fws_net::End;
use fws_num::{Memory, Text, put_dec};
use fws_print::{put_address, put_number, put_protocol, put_word};

/// Appends an address, and the port behind a colon if there is one, behind a blank.
fn put_end(out: &mut Text, e: End) -> Result<(), Memory>
    ensures { OnOk result (out.new ≡ out.old ++ 32 ∷ end_word e) }
{
    put_address(out, e.addr)?;
    if let Some(port) = e.port {
        out.put(b":")?;
        put_dec(out, u64::from(port))?;
    }
    Ok(())
}

/// Appends both ends of a redirect.
fn put_ends(out: &mut Text, local: End, public: End) -> Result<(), Memory>
    ensures { OnOk result (out.new ≡ out.old ++ behind_blanks (end_word local ∷ end_word public ∷ [])) }
{
    put_end(out, local)?;
    put_end(out, public)?;
    Ok(())
}

/// Appends a redirect of ports of a protocol.
fn put_port_redirect(out: &mut Text, proto: u32, local: End, public: End) -> Result<(), Memory>
    ensures { OnOk result (out.new ≡ out.old ++ behind_blanks (codes "redirect_port" ∷ protocol_name proto ∷ end_word local ∷ end_word public ∷ [])) }
{
    put_word(out, b"redirect_port")?;
    put_protocol(out, proto)?;
    put_ends(out, local, public)?;
    Ok(())
}

/// Appends a redirect of addresses.
fn put_address_redirect(out: &mut Text, local: u32, public: u32) -> Result<(), Memory>
    ensures { OnOk result (out.new ≡ out.old ++ behind_blanks (codes "redirect_addr" ∷ dotted local ∷ dotted public ∷ [])) }
{
    put_word(out, b"redirect_addr")?;
    put_address(out, local)?;
    put_address(out, public)?;
    Ok(())
}

/// Appends a redirect of ports, or one of addresses.
fn put_redirect(out: &mut Text, r: Redirect) -> Result<(), Memory>
    ensures { OnOk result (out.new ≡ out.old ++ behind_blanks (redirect_words r)) }
{
    match r.proto {
        Some(proto) => put_port_redirect(out, u32::from(proto), r.local, r.public),
        None => put_address_redirect(out, r.local.addr, r.public.addr),
    }
}

/// Appends the redirects of an instance.
fn put_redirects(out: &mut Text, redirects: &[Redirect]) -> Result<(), Memory>
    ensures { OnOk result (out.new ≡ out.old ++ behind_blanks (flat_map redirect_words redirects.now)) }
{
    for r in redirects {
        put_redirect(out, *r)?;
    }
    Ok(())
}

/// Appends the line of an instance.
fn put_nat(out: &mut Text, nat: &IpfwNat) -> Result<(), Memory>
    ensures { OnOk result (out.new ≡ out.old ++ ended (spaced (nat_words nat.now) ∷ [])) }
{
    out.put(b"nat")?;
    put_number(out, nat.number)?;
    out.put(b" config ip")?;
    put_address(out, nat.alias)?;
    put_redirects(out, nat.redirects.as_slice())?;
    out.put(b"\n")?;
    Ok(())
}

/// Appends the lines of instances.
fn put_all(out: &mut Text, nats: &[IpfwNat]) -> Result<(), Memory>
    ensures { OnOk result (out.new ≡ out.old ++ ended (map (λ nat. spaced (nat_words nat)) nats.now)) }
{
    for nat in nats {
        put_nat(out, nat)?;
    }
    Ok(())
}

/// Appends the lines of the instances, if there are any, behind a comment.
pub fn put_nats(out: &mut Text, nats: &[IpfwNat]) -> Result<(), Memory>
    ensures { OnOk result (out.new ≡ out.old ++ ended (nat_lines nats.now)) }
{
    if let [_, ..] = nats {
        out.put(b"# The instances of address translation that rules name.\n")?;
        put_all(out, nats)?;
    }
    Ok(())
}
