//! A pool behind its name (Cisco IOS).

ghost use Rattle.std.specs.Prelude.{◌≡◌, if◌then◌else◌, Ok, Err};
ghost use Rattle.fws_net.specs.Causes.{judged, words_read};
ghost use Rattle.fws_net.specs.Reading.{CauseGiven, StepGiven};
ghost use Rattle.fws_ios.specs.NatText.{first_step, is_whole_pool, last_step, length_step, pool_checked, pool_expected, pool_step};

use crate::keywords::misplaced;
use crate::values::{is_netmask, is_prefix_length};
use fws_ios::PoolExpects;
use fws_net::{Cause, ReadFault};
use fws_num::{Word, read_quad};
use fws_rules::is;

/// Takes the first address.
fn first_step(text: &[u8]) -> Result<PoolExpects, ReadFault>
    ensures { CauseGiven result (first_step text.now) }
{
    match read_quad(text) {
        Some(addr) => Ok(PoolExpects::Last(addr)),
        None => Err(ReadFault::Bad(Cause::Syntax)),
    }
}

/// Takes the last address. A pool of more than one address is left out.
fn last_step(first: u32, text: &[u8]) -> Result<PoolExpects, ReadFault>
    ensures { CauseGiven result (last_step first text.now) }
{
    let Some(last) = read_quad(text) else {
        return Err(ReadFault::Bad(Cause::Syntax));
    };
    if last != first {
        return Err(ReadFault::Bad(Cause::LeftOut));
    }
    Ok(PoolExpects::Length)
}

/// Takes `netmask` or `prefix-length`.
fn length_step(text: &[u8]) -> Result<PoolExpects, ReadFault>
    ensures { CauseGiven result (length_step text.now) }
{
    if is(text, b"netmask") {
        return Ok(PoolExpects::Netmask);
    }
    if is(text, b"prefix-length") {
        return Ok(PoolExpects::PrefixLength);
    }
    Err(ReadFault::Bad(misplaced(text)))
}

/// The end of a pool, where what stands there is spelled as it should be.
fn ended(is_spelled: bool) -> Result<PoolExpects, ReadFault>
    ensures { CauseGiven result (if is_spelled then Ok PoolExpects.Nothing else Err Cause.Syntax) }
{
    if is_spelled {
        Ok(PoolExpects::Nothing)
    } else {
        Err(ReadFault::Bad(Cause::Syntax))
    }
}

/// What the next word is taken for behind this one.
fn pool_expected(expects: PoolExpects, text: &[u8]) -> Result<PoolExpects, ReadFault>
    ensures { CauseGiven result (pool_expected expects text.now) }
{
    match expects {
        PoolExpects::First => first_step(text),
        PoolExpects::Last(first) => last_step(first, text),
        PoolExpects::Length => length_step(text),
        PoolExpects::Netmask => ended(is_netmask(text)),
        PoolExpects::PrefixLength => ended(is_prefix_length(text)),
        PoolExpects::Nothing => Err(ReadFault::Bad(Cause::Syntax)),
    }
}

/// What the next word is taken for behind this one. One with a bad byte or an open quote is refused, whatever it would
/// be.
fn pool_step(expects: PoolExpects, word: &Word) -> Result<PoolExpects, ReadFault>
    ensures { CauseGiven result (judged word.now (pool_step expects word.now)) }
{
    if !word.is_sound() {
        return Err(ReadFault::Bad(Cause::Syntax));
    }
    pool_expected(expects, word.text.as_slice())
}

/// What is expected behind these words, which are taken up to the first that is refused.
fn pool_read(words: &[Word]) -> Result<PoolExpects, ReadFault>
    ensures { CauseGiven result (words_read pool_step PoolExpects.First words.now) }
{
    let mut expects = PoolExpects::First;
    for word in words {
        expects = pool_step(expects, word)?;
    }
    Ok(expects)
}

/// Whether nothing is expected any more.
fn is_whole_pool(expects: PoolExpects) -> bool
    ensures { result ≡ is_whole_pool expects }
{
    matches!(expects, PoolExpects::Nothing)
}

/// Tests that the words behind the name of a pool are those of a pool.
pub(crate) fn pool_checked(words: &[Word]) -> Result<PoolExpects, ReadFault>
    ensures { CauseGiven result (pool_checked words.now) }
{
    let expects = pool_read(words)?;
    if is_whole_pool(expects) {
        Ok(expects)
    } else {
        Err(ReadFault::Bad(Cause::Syntax))
    }
}
