//! Literals of a rule's condition.

ghost use Rattle.std.specs.Prelude.{◌≡◌, ◌++◌, OnOk};
ghost use Rattle.std.specs.Option.{ok_or};
ghost use Rattle.fws_net.specs.Reading.{CauseGiven};
ghost use Rattle.fws_rules.specs.Literals.{positive, negative, literals};

use fws_net::{Cause, Cond, Lit, ReadFault, Test};
use fws_num::Memory;

/// The test as a literal.
pub fn positive(test: Test) -> Lit
    ensures { result ≡ positive test }
{
    Lit { not: false, test }
}

/// The test as a literal that negates it.
pub fn negative(test: Test) -> Lit
    ensures { result ≡ negative test }
{
    Lit { not: true, test }
}

/// What was spelled, which has to be there; else the cause is Syntax.
pub fn demand<T: Drop>(spelled: Option<T>) -> Result<T, ReadFault>
    ensures { CauseGiven result (ok_or spelled Cause.Syntax) }
{
    match spelled {
        Some(value) => Ok(value),
        None => Err(ReadFault::Bad(Cause::Syntax)),
    }
}

/// Appends what stands in a condition for an option: nothing where it holds of every packet, and a test that never holds where that
/// is negated. Fails if memory runs out.
pub fn put_literals(cond: &mut Cond, negated: bool, lit: Option<Lit>) -> Result<(), Memory>
    ensures { OnOk result (cond.new ≡ cond.old ++ literals negated lit) }
{
    match lit {
        None => {
            if negated {
                cond.put(positive(Test::Never))?;
            }
        }
        Some(lit) => cond.put(Lit {
            not: lit.not != negated,
            test: lit.test,
        })?,
    }
    Ok(())
}
