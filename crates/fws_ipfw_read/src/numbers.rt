//! Numbers from 1 on.

ghost use Rattle.std.specs.Prelude.{◌≡◌, ◌<◌, ◌≤◌, IfSome};
ghost use Rattle.fws_ipfw.specs.Values.{counted};

use fws_num::read_dec;

/// A number from 1 to the most.
pub(crate) fn read_counted(text: &[u8], most: u32) -> Option<u32>
    ensures value { result ≡ counted most text.now }
    ensures few { IfSome result (λ n. n ≤ most) }
    ensures some { IfSome result (λ n. 0 < n) }
{
    let number = read_dec(text, u64::from(most))?;
    if number == 0 {
        return None;
    }
    Some(number as u32)
}
