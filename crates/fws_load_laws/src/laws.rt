//! Laws of the generator's texts: functions that do nothing, whose clauses are for the proofs of callers.

ghost use Rattle.fws_load_laws.specs.LoadedFilters.{LoadConfigsAreNotRefused, LoadTextsAreRead};
ghost use Rattle.fws_load_laws.specs.LoadedSite.{LoadSiteIsRead};

use fws_num::{
    addresses_are_dotted, decimals_are_read, numbers_are_digits, prefixes_are_read, texts_are_read,
};

/// The site of the generator is read as the site that it is meant for: no line of it is refused.
pub fn load_site_is_read()
    ensures { LoadSiteIsRead }
{}

/// A generated text of iptables is read as the filter that it is meant for: no line of it is refused.
pub fn load_texts_are_read()
    ensures { LoadTextsAreRead }
{
    addresses_are_dotted();
    decimals_are_read();
    numbers_are_digits();
    prefixes_are_read();
    texts_are_read();
}

/// The chains of a generated filter can be unfolded: none reaches itself, none is too deep, and the rules
/// don't become too many.
pub fn load_configs_are_not_refused()
    ensures { LoadConfigsAreNotRefused }
{}
