//! Translations as they are printed, each behind its pool.

ghost use Rattle.std.specs.Prelude.{◌≡◌, [], ◌∷◌, ◌++◌, codes, OnOk};
ghost use Rattle.fws_num.specs.Numbers.{dotted};
ghost use Rattle.fws_num.specs.Written.{ended, spaced};
ghost use Rattle.fws_print.specs.Words.{behind_blanks};
ghost use Rattle.fws_ios_print.specs.PrintedText.{nat_lines, nat_words, nats_lines, pool_name, pool_words};

use fws_ios::IosNat;
use fws_num::{Memory, Text, put_dec};
use fws_print::{put_address, put_word};

/// Appends the name of the pool of the translation at this place, behind a blank.
fn put_pool_name(out: &mut Text, n: u64) -> Result<(), Memory>
    ensures { OnOk result (out.new ≡ out.old ++ 32 ∷ pool_name n) }
{
    out.put(b" P")?;
    put_dec(out, n)?;
    Ok(())
}

/// Appends the words of a pool behind its first one.
fn put_pool_words(out: &mut Text, n: u64, addr: u32) -> Result<(), Memory>
    ensures { OnOk result (out.new ≡ out.old
        ++ behind_blanks (codes "nat" ∷ codes "pool" ∷ pool_name n ∷ dotted addr ∷ dotted addr ∷ codes "prefix-length" ∷ codes "24" ∷ [])) }
{
    out.put(b" nat pool")?;
    put_pool_name(out, n)?;
    put_address(out, addr)?;
    put_address(out, addr)?;
    out.put(b" prefix-length 24")?;
    Ok(())
}

/// Appends the line of a pool of one address.
fn put_pool(out: &mut Text, n: u64, addr: u32) -> Result<(), Memory>
    ensures { OnOk result (out.new ≡ out.old ++ ended (spaced (pool_words n addr) ∷ [])) }
{
    out.put(b"ip")?;
    put_pool_words(out, n, addr)?;
    out.put(b"\n")?;
    Ok(())
}

/// Appends the words of a translation behind its first one.
fn put_list_words(out: &mut Text, n: u64, name: &[u8]) -> Result<(), Memory>
    ensures { OnOk result (out.new ≡ out.old
        ++ behind_blanks (codes "nat" ∷ codes "inside" ∷ codes "source" ∷ codes "list" ∷ name.now ∷ codes "pool" ∷ pool_name n ∷ codes "overload" ∷ [])) }
{
    out.put(b" nat inside source list")?;
    put_word(out, name)?;
    out.put(b" pool")?;
    put_pool_name(out, n)?;
    out.put(b" overload")?;
    Ok(())
}

/// Appends the line of a translation.
fn put_list_nat(out: &mut Text, n: u64, name: &[u8]) -> Result<(), Memory>
    ensures { OnOk result (out.new ≡ out.old ++ ended (spaced (nat_words n name.now) ∷ [])) }
{
    out.put(b"ip")?;
    put_list_words(out, n, name)?;
    out.put(b"\n")?;
    Ok(())
}

/// Appends a translation behind its pool.
fn put_pooled(out: &mut Text, n: u64, name: &[u8], addr: u32) -> Result<(), Memory>
    ensures { OnOk result (out.new ≡ out.old ++ ended (spaced (pool_words n addr) ∷ spaced (nat_words n name.now) ∷ [])) }
{
    put_pool(out, n, addr)?;
    put_list_nat(out, n, name)?;
    Ok(())
}

/// Appends the lines of a translation at this place.
fn put_nat(out: &mut Text, n: u64, nat: &IosNat) -> Result<(), Memory>
    ensures { OnOk result (out.new ≡ out.old ++ ended (nat_lines n nat.now)) }
{
    match nat {
        IosNat::List { list, addr } => put_pooled(out, n, list.as_slice(), *addr),
        IosNat::Static { .. } => out.put(b""),
    }
}

/// Appends the lines of translations.
pub fn put_nats(out: &mut Text, nats: &[IosNat]) -> Result<(), Memory>
    ensures { OnOk result (out.new ≡ out.old ++ ended (nats_lines 1 nats.now)) }
{
    let mut ahead = 0u64;
    for nat in nats {
        ahead += 1;
        put_nat(out, ahead, nat)?;
    }
    Ok(())
}
