//! The pools that lines of a text define, whether they are refused or not.

ghost use Rattle.std.specs.Prelude.{◌≡◌, IfOk, OnOk};
ghost use Rattle.std.specs.Option.{option_map_or};
ghost use Rattle.fws_ios.specs.FileText.{all_defined, begins_pool, defined_by, defined_from, pool_behind_name, pool_defined, with_defined};

use crate::begins::{begins_with_three, behind};
use crate::pools::Pools;
use fws_ios::Pool;
use fws_num::{Line, Memory, Text, Word, read_quad};
use std::alloc::Global;

/// The pool that a line defines, whatever stands behind its name.
fn pool_behind_name(name: Text, words: &[Word]) -> Pool
    ensures { result ≡ pool_behind_name name words.now }
{
    let addr = match words.first() {
        Some(word) => read_quad(word.text.as_slice()).unwrap_or(0),
        None => 0,
    };
    Pool { name, addr }
}

/// The pool that the words behind `ip nat pool` define.
fn pool_defined(alloc: Global, words: &[Word]) -> Result<Option<Pool>, Memory>
    ensures { IfOk result (λ pool. pool ≡ pool_defined words.now) }
{
    let Some((word, rest)) = words.split_first() else {
        return Ok(None);
    };
    if !word.is_sound() {
        return Ok(None);
    }
    let name = word.text.copy(alloc)?;
    Ok(Some(pool_behind_name(name, rest)))
}

/// Whether the line begins as that of a pool.
fn begins_pool(line: &Line) -> bool
    ensures { result ≡ begins_pool line.now }
{
    !line.indented && begins_with_three(line.words.as_slice(), b"ip", b"nat", b"pool")
}

/// The pool that the line defines.
fn defined_by(alloc: Global, line: &Line) -> Result<Option<Pool>, Memory>
    ensures { IfOk result (λ pool. pool ≡ defined_by line.now) }
{
    if !begins_pool(line) {
        return Ok(None);
    }
    pool_defined(alloc, behind(line.words.as_slice(), 3))
}

/// Puts the pool that a line defines behind the others, unless one of them has its name.
fn note(alloc: Global, line: &Line, pools: &mut Pools) -> Result<(), Memory>
    ensures { OnOk result (pools.new ≡ option_map_or (λ pool. with_defined pool pools.old) (defined_by line.now) pools.old) }
{
    match defined_by(alloc, line)? {
        Some(pool) => pools.put_if_new(pool),
        None => Ok(()),
    }
}

/// Notes what lines define, in their order.
fn note_all(alloc: Global, lines: &[Line], pools: &mut Pools) -> Result<(), Memory>
    ensures { OnOk result (pools.new ≡ defined_from pools.old lines.now) }
{
    for line in lines {
        note(alloc, line, pools)?;
    }
    Ok(())
}

/// The pools that the lines define, refused lines among them; the first of one name counts.
pub(crate) fn all_defined(alloc: Global, lines: &[Line]) -> Result<Pools, Memory>
    ensures { IfOk result (λ pools. pools ≡ all_defined lines.now) }
{
    let mut pools = Pools::new(alloc);
    note_all(alloc, lines, &mut pools)?;
    Ok(pools)
}
