//! Where rules of a configuration stand in its diagram.

ghost use Rattle.std.specs.Prelude.{◌≡◌, ◌+◌, List, ◌++◌, length, IfOk, OnOk};
ghost use Rattle.fws_ifcl.specs.declared.diagram.Rule.{Rule};
ghost use Rattle.fws_ifcl_rules.specs.UsedPlaces.{first_told, spots_from};

use fws_ifcl::{Place, Spot};
use fws_num::Memory;

/// The number. Fails if memory or numbers run out.
fn narrow(n: usize) -> Result<u32, Memory>
    ensures { IfOk result (λ m. m ≡ n) }
{
    u32::try_from(n).map_err(|_| Memory)
}

/// Puts the spot behind the others of the configuration's rule with this number, for which a chain has the rules from one place on,
/// up to the other: where the first of them stands, and none where it has none. Fails if memory or numbers for rules run out.
pub fn put_spot(
    spots: &mut Vec<Spot>,
    number: usize,
    chain: u32,
    from: usize,
    to: usize,
) -> Result<(), Memory>
    ensures { OnOk result ((rules : List Rule) → from + length rules ≡ to → spots.new.items ≡ spots.old.items ++ spots_from chain from (first_told number rules)) }
{
    if from == to {
        return Ok(());
    }
    let rule = narrow(number)?;
    let place = narrow(from)?;
    spots.push(Spot {
        rule,
        at: Place { chain, rule: place },
    })?;
    Ok(())
}
