//! Tuples as words.

ghost use Rattle.std.specs.Prelude.{◌≡◌};
ghost use Rattle.fws_num.specs.Numbers.{dec_of};
ghost use Rattle.fws_trace.specs.ConnectionText.{spelled_end, spelled_tuple};

use fws_net::Tuple;
use fws_num::{Word, read_dec, read_quad};

/// A protocol, or an ICMP type.
pub(crate) fn read_byte(word: &Word) -> Option<u8>
    ensures { result ≡ dec_of word.now.text 255 }
{
    let n = read_dec(word.text.as_slice(), 255)?;
    Some(n as u8)
}

/// An address and a port.
fn read_end(addr: &Word, port: &Word) -> Option<(u32, u16)>
    ensures { result ≡ spelled_end addr.now port.now }
{
    let a = read_quad(addr.text.as_slice())?;
    let n = read_dec(port.text.as_slice(), 65535)?;
    Some((a, n as u16))
}

/// A tuple of five words: protocol, destination, its port, source and its port.
pub(crate) fn read_tuple(
    proto: &Word,
    dst: &Word,
    dport: &Word,
    src: &Word,
    sport: &Word,
) -> Option<Tuple>
    ensures { result ≡ spelled_tuple proto.now dst.now dport.now src.now sport.now }
{
    let proto = read_byte(proto)?;
    let (dst, dport) = read_end(dst, dport)?;
    let (src, sport) = read_end(src, sport)?;
    Some(Tuple {
        proto,
        dst,
        dport,
        src,
        sport,
    })
}
