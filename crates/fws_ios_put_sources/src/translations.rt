//! Translation lists, and the translations that ask them.

use fws_ios::{IosList, IosNat};
use fws_num::Items;

/// Translation lists, and the translations that ask them. Each list is asked by one translation.
#[derive(Drop)]
pub struct Sources {
    /// The lists.
    pub lists: Items<IosList>,
    /// The translations, in the order in which they are tried.
    pub nats: Items<IosNat>,
}
