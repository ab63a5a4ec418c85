//! Numbers and addresses as they are spelled.

ghost use Rattle.std.specs.Prelude.{◌≡◌, ◌≤◌, Some, None, MatchOption, IfSome};
ghost use Rattle.fws_num.specs.Numbers.{dec_of, has_leading_zero, octet_before_dot, octet_of, quad_of, split_once};

/// The number of 1 to 20 decimal digits, if it is at most the limit.
pub fn read_dec(text: &[u8], most: u64) -> Option<u64>
    ensures value { result ≡ dec_of text.now most }
    ensures small { IfSome result (λ n. n ≤ most) }
{
    if text.is_empty() || text.len() > 20 {
        return None;
    }
    // 20 digits can pass 2^64
    let mut value: u128 = 0;
    for c in text {
        if !c.is_ascii_digit() {
            return None;
        }
        value = value * 10 + u128::from(*c - b'0');
    }
    if value <= u128::from(most) {
        Some(value as u64)
    } else {
        None
    }
}

/// What stands before the first such byte and what stands behind it.
pub fn split_once(text: &[u8], byte: u8) -> Option<(&[u8], &[u8])>
    ensures { MatchOption result
        (split_once byte text.now ≡ None)
        (λ parts. split_once byte text.now ≡ Some (parts.0.now, parts.1.now)) }
{
    for (i, c) in text.iter().enumerate() {
        if *c == byte {
            return Some((&text[..i], &text[i + 1..]));
        }
    }
    None
}

/// It begins with a zero and has more behind it.
fn has_leading_zero(text: &[u8]) -> bool
    ensures { result ≡ has_leading_zero text.now }
{
    match text {
        [first, _, ..] => *first == b'0',
        _ => false,
    }
}

/// The number 0 to 255 of decimal digits without leading zeros.
#[tactic(auto, unfolding(crate::specs::Numbers::octet_of))]
fn read_octet(text: &[u8]) -> Option<u8>
    ensures { result ≡ octet_of text.now }
{
    if has_leading_zero(text) {
        return None;
    }
    let octet = read_dec(text, 255)?;
    Some(octet as u8)
}

/// The octet before the first dot, and what stands behind the dot.
#[tactic(auto, unfolding(crate::specs::Numbers::octet_before_dot))]
fn read_octet_before_dot(text: &[u8]) -> Option<(u8, &[u8])>
    ensures { MatchOption result
        (octet_before_dot text.now ≡ None)
        (λ parts. octet_before_dot text.now ≡ Some (parts.0, parts.1.now)) }
{
    let (before, behind) = split_once(text, b'.')?;
    let octet = read_octet(before)?;
    Some((octet, behind))
}

/// The address of four decimal numbers 0 to 255, without leading zeros and joined by dots.
#[tactic(auto, unfolding(crate::specs::Numbers::quad_of))]
pub fn read_quad(text: &[u8]) -> Option<u32>
    ensures { result ≡ quad_of text.now }
{
    let (a, rest) = read_octet_before_dot(text)?;
    let (b, rest) = read_octet_before_dot(rest)?;
    let (c, rest) = read_octet_before_dot(rest)?;
    let d = read_octet(rest)?;
    Some(((u32::from(a) * 256 + u32::from(b)) * 256 + u32::from(c)) * 256 + u32::from(d))
}
