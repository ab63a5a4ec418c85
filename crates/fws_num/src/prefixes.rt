//! Prefixes as they are spelled.

ghost use Rattle.std.specs.Prelude.{◌≡◌, ◌-◌, ◌%◌, ◌^◌, ◌≤◌, IfSome};
ghost use Rattle.fws_num.specs.Numbers.{first_bits, mask_len, mask_of, prefix_len_of, prefix_of};

use crate::numbers::{read_dec, read_quad, split_once};
use crate::prefix::{Prefix, addresses};

/// The mask whose first `len` bits are set.
fn mask_of(len: u8) -> u32
    requires { len ≤ 32 }
    ensures { result ≡ mask_of len }
{
    ((1 << 32) - addresses(len)) as u32
}

/// The length of a contiguous mask.
#[tactic(auto, unfolding(crate::specs::Numbers::mask_len))]
fn mask_len(mask: u32) -> Option<u8>
    ensures value { result ≡ mask_len mask }
    ensures short { IfSome result (λ len. len ≤ 32) }
{
    for len in 0..33 {
        if mask_of(len) == mask {
            return Some(len);
        }
    }
    None
}

/// The length that stands behind a slash: a decimal 0 to 32 or a contiguous mask.
#[tactic(auto, unfolding(crate::specs::Numbers::prefix_len_of))]
fn read_prefix_len(text: &[u8]) -> Option<u8>
    ensures value { result ≡ prefix_len_of text.now }
    ensures short { IfSome result (λ len. len ≤ 32) }
{
    match read_dec(text, 32) {
        Some(len) => Some(len as u8),
        None => mask_len(read_quad(text)?),
    }
}

/// The address without the bits past the first `len`.
#[tactic(auto, using(crate::proofs::Masks::clear_part), unfolding(crate::specs::Numbers::first_bits))]
fn first_bits(len: u8, addr: u32) -> u32
    requires { len ≤ 32 }
    ensures value { result ≡ first_bits len addr }
    ensures clear { result % 2 ^ (32 - len) ≡ 0 }
{
    addr - (u64::from(addr) % addresses(len)) as u32
}

/// The prefix of an address, with a length 0 to 32 or a contiguous mask behind a slash; with no slash
/// its length is 32. The address loses the bits past the length.
#[tactic(auto, unfolding(crate::specs::Numbers::prefix_of))]
pub fn read_prefix(text: &[u8]) -> Option<Prefix>
    ensures value { result ≡ prefix_of text.now }
    ensures len_in { IfSome result (λ p. p.len ≤ 32) }
    ensures clear { IfSome result (λ p. p.addr % 2 ^ (32 - p.len) ≡ 0) }
{
    match split_once(text, b'/') {
        None => {
            let addr = read_quad(text)?;
            Some(Prefix { addr, len: 32 })
        }
        Some((addr, len)) => {
            let addr = read_quad(addr)?;
            let len = read_prefix_len(len)?;
            Some(Prefix {
                addr: first_bits(len, addr),
                len,
            })
        }
    }
}
