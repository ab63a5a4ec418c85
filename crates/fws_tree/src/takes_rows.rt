//! What takes rows one by one.

use fws_iv::Ivs;
use fws_num::Memory;

/// What takes rows, one after the other.
pub trait TakesRows<L> {
    ghost use Rattle.std.specs.Prelude.{List, [], ◌∷◌, ◌++◌, OnOk};
    ghost use Rattle.fws_tree.specs.declared.row.Row.{Row};

    // The second is the first after it took these rows, in their order.
    ghost took: { Self → Self → List (Row L) → Type 0 };

    /// Takes the row with these sides and this leaf. Fails if memory runs out.
    fn take(&mut self, sides: &[Ivs; 12], leaf: &L) -> Result<(), Memory>
        ensures { OnOk result (took self.old self.new (record { sides = sides.now; leaf = leaf.now } ∷ [])) };

    // No rows change nothing.
    ghost same: { (s : Self) → took s s [] };

    // Rows, and others behind them.
    ghost then: { (s t u : Self) (xs ys : List (Row L)) → took s t xs → took t u ys → took s u (xs ++ ys) };
}
