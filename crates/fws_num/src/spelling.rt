//! Numbers and addresses spelled.

ghost use Rattle.std.specs.Prelude.{◌≡◌, ◌+◌, ◌<◌, ◌≤◌, ◌∷◌, ◌++◌, length, drop, OnOk, OnErr};
ghost use Rattle.std.specs.Fmt.{decimal};
ghost use Rattle.fws_num.specs.Numbers.{dotted};

use crate::memory::Memory;
use crate::text::Text;
use itoa::{Buffer, write_digits};

/// Appends the number in decimal digits. If memory runs out the text is as before.
pub fn put_dec(out: &mut Text, n: u64) -> Result<(), Memory>
    ensures ok { OnOk result (out.new ≡ out.old ++ decimal n) }
    ensures err { OnErr result (out.new ≡ out.old) }
{
    let mut buffer = Buffer::new();
    out.put(buffer.format(n).as_bytes())
}

/// Writes the octet's digits so that they end at `end`, and gives where they start.
fn write_octet(octet: u8, buf: &mut [u8], end: usize) -> usize
    requires room { 3 ≤ end }
    requires within { end ≤ length buf.old }
    ensures written { drop result buf.new ≡ decimal octet ++ drop end buf.old }
    ensures near { end ≤ result + 3 }
    ensures before { result ≤ end }
{
    write_digits(u64::from(octet), buf, end)
}

/// Writes the octet's digits and a dot so that they end at `end`, and gives where they start.
fn write_octet_and_dot(octet: u8, buf: &mut [u8], end: usize) -> usize
    requires room { 4 ≤ end }
    requires within { end ≤ length buf.old }
    ensures written { drop result buf.new ≡ decimal octet ++ 46 ∷ drop end buf.old }
    ensures near { end ≤ result + 4 }
    ensures before { result ≤ end }
{
    buf[end - 1] = b'.';
    write_octet(octet, buf, end - 1)
}

/// Appends the address as four octets joined by dots. If memory runs out the text is as before.
pub fn put_quad(out: &mut Text, a: u32) -> Result<(), Memory>
    ensures ok { OnOk result (out.new ≡ out.old ++ dotted a) }
    ensures err { OnErr result (out.new ≡ out.old) }
{
    let mut spelled = [0; 15];
    let at = write_octet((a % 256) as u8, &mut spelled, 15);
    let at = write_octet_and_dot((a / 256 % 256) as u8, &mut spelled, at);
    let at = write_octet_and_dot((a / 65536 % 256) as u8, &mut spelled, at);
    let at = write_octet_and_dot((a / 16777216) as u8, &mut spelled, at);
    out.put(&spelled[at..])
}
