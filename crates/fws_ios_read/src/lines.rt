//! The lines of a text (Cisco IOS).

ghost use Rattle.std.specs.Prelude.{◌≡◌, Ok, IfOk};
ghost use Rattle.std.specs.Fmt.{decimal};
ghost use Rattle.fws_net.specs.Reading.{StepGiven, and_then};
ghost use Rattle.fws_net.specs.Routes.{IsSound};
ghost use Rattle.fws_ios.specs.FileText.{inside_line, line_step, list_kind, named_line, numbered_line, opening_line, pool_behind, pool_line, top_line, with_nat};
ghost use Rattle.fws_ios.specs.NatText.{nat_of};

use crate::begins::{begins_with, begins_with_three, begins_with_two, behind, is_left_out, says};
use crate::groups::interface_line;
use crate::lists::list_number;
use crate::nat::nat_of;
use crate::pool_text::pool_checked;
use crate::pools::Pools;
use crate::progress::{Progress, open_alone};
use fws_ios::Block;
use fws_net::{Cause, ReadFault, Site};
use fws_num::{Line, Memory, Text, Word, put_dec};
use fws_rules::is;
use std::alloc::Global;

/// The name of the list with a number.
fn number_name(alloc: Global, number: u32) -> Result<Text, Memory>
    ensures { IfOk result (λ name. name ≡ decimal number) }
{
    let mut name = Text::new(alloc);
    put_dec(&mut name, u64::from(number))?;
    Ok(name)
}

/// Takes the words behind `access-list`.
fn numbered_line(alloc: Global, words: &[Word], progress: &mut Progress) -> Result<(), ReadFault>
    ensures { StepGiven result progress.new (numbered_line words.now progress.old) }
{
    let Some((word, rest)) = words.split_first() else {
        return Err(ReadFault::Bad(Cause::Syntax));
    };
    if !word.is_sound() {
        return Err(ReadFault::Bad(Cause::Syntax));
    }
    let (number, extended) = list_number(word.text.as_slice())?;
    let name = number_name(alloc, number)?;
    progress.take_entry(alloc, &name, extended, false, rest)
}

/// Whether lists of this kind are extended ones.
fn list_kind(word: &Word) -> Option<bool>
    ensures { result ≡ list_kind word.now }
{
    if says(word, b"standard") {
        Some(false)
    } else if says(word, b"extended") {
        Some(true)
    } else {
        None
    }
}

/// Takes the words behind `ip access-list` and the kind of the list.
fn named_line(
    alloc: Global,
    extended: bool,
    words: &[Word],
    progress: &mut Progress,
) -> Result<(), ReadFault>
    ensures { StepGiven result progress.new (named_line extended words.now progress.old) }
{
    let Some((word, rest)) = words.split_first() else {
        return Err(ReadFault::Bad(Cause::Syntax));
    };
    if !word.is_sound() {
        return Err(ReadFault::Bad(Cause::Syntax));
    }
    let name = word.text.copy(alloc)?;
    open_alone(Block::List(name, extended), rest, progress)
}

/// Takes the words behind `ip access-list`.
fn opening_line(alloc: Global, words: &[Word], progress: &mut Progress) -> Result<(), ReadFault>
    ensures { StepGiven result progress.new (opening_line words.now progress.old) }
{
    let Some((word, rest)) = words.split_first() else {
        return Err(ReadFault::Bad(Cause::Syntax));
    };
    match list_kind(word) {
        Some(extended) => named_line(alloc, extended, rest, progress),
        None => Ok(()),
    }
}

/// Takes the words behind the name of a pool, which no other has.
fn pool_behind(
    alloc: Global,
    name: &Text,
    words: &[Word],
    progress: &mut Progress,
) -> Result<(), ReadFault>
    ensures { StepGiven result progress.new (pool_behind name.now words.now progress.old) }
{
    if progress.has_pool(name) {
        return Err(ReadFault::Bad(Cause::Syntax));
    }
    pool_checked(words)?;
    progress.put_pool(name.copy(alloc)?)?;
    Ok(())
}

/// Takes the words behind `ip nat pool`.
fn pool_line(alloc: Global, words: &[Word], progress: &mut Progress) -> Result<(), ReadFault>
    ensures { StepGiven result progress.new (pool_line words.now progress.old) }
{
    let Some((word, rest)) = words.split_first() else {
        return Err(ReadFault::Bad(Cause::Syntax));
    };
    if !word.is_sound() {
        return Err(ReadFault::Bad(Cause::Syntax));
    }
    pool_behind(alloc, &word.text, rest, progress)
}

/// Takes the words behind `ip nat inside source`.
fn source_line(
    alloc: Global,
    site: &Site,
    pools: &Pools,
    words: &[Word],
    progress: &mut Progress,
) -> Result<(), ReadFault>
    requires { IsSound site.now }
    ensures { StepGiven result progress.new (and_then (nat_of site.now pools.now words.now) (λ nat. Ok (with_nat nat progress.old))) }
{
    let nat = nat_of(alloc, site, pools, words)?;
    progress.put_nat(nat)?;
    Ok(())
}

/// Takes the words behind `ip nat inside`.
fn inside_line(
    alloc: Global,
    site: &Site,
    pools: &Pools,
    words: &[Word],
    progress: &mut Progress,
) -> Result<(), ReadFault>
    requires { IsSound site.now }
    ensures { StepGiven result progress.new (inside_line site.now pools.now words.now progress.old) }
{
    let Some((word, rest)) = words.split_first() else {
        return Err(ReadFault::Bad(Cause::Syntax));
    };
    if !word.is_sound() {
        return Err(ReadFault::Bad(Cause::Syntax));
    }
    if !is(word.text.as_slice(), b"source") {
        return Err(ReadFault::Bad(Cause::LeftOut));
    }
    source_line(alloc, site, pools, rest, progress)
}

/// Takes a line that doesn't begin with a blank.
fn top_line(
    alloc: Global,
    site: &Site,
    pools: &Pools,
    words: &[Word],
    progress: &mut Progress,
) -> Result<(), ReadFault>
    requires { IsSound site.now }
    ensures { StepGiven result progress.new (top_line site.now pools.now words.now progress.old) }
{
    if begins_with(words, b"interface") {
        return interface_line(site, behind(words, 1), progress);
    }
    if begins_with(words, b"access-list") {
        return numbered_line(alloc, behind(words, 1), progress);
    }
    if begins_with_two(words, b"ip", b"access-list") {
        return opening_line(alloc, behind(words, 2), progress);
    }
    if begins_with_three(words, b"ip", b"nat", b"pool") {
        return pool_line(alloc, behind(words, 3), progress);
    }
    if begins_with_three(words, b"ip", b"nat", b"inside") {
        return inside_line(alloc, site, pools, behind(words, 3), progress);
    }
    if is_left_out(words) {
        return Err(ReadFault::Bad(Cause::LeftOut));
    }
    Ok(())
}

/// Takes a line.
pub(crate) fn line_step(
    alloc: Global,
    site: &Site,
    pools: &Pools,
    line: &Line,
    progress: &mut Progress,
) -> Result<(), ReadFault>
    requires { IsSound site.now }
    ensures { StepGiven result progress.new (line_step site.now pools.now progress.old line.now) }
{
    let words = line.words.as_slice();
    if line.indented {
        return progress.take_indented(alloc, words);
    }
    progress.open(Block::Other);
    top_line(alloc, site, pools, words, progress)
}
