//! Laws over tables and plans: functions with nothing to do.

ghost use Rattle.std.specs.Prelude.{◌≡◌, ℕ, List, Ok};
ghost use Rattle.fws_net.specs.declared.site.Site.{Site};
ghost use Rattle.fws_tree.specs.declared.tables.Tables.{Tables};
ghost use Rattle.fws_tree.specs.Regular.{AreRegular};
ghost use Rattle.fws_top.specs.KeepStep.{TranslationsKeepStep};
ghost use Rattle.fws_top.specs.LoadPlans.{LoadWordsAreShown, LoadsAreShown};
ghost use Rattle.fws_top.specs.RegularTables.{RegularWalksMakeRegularTables};
ghost use Rattle.fws_top.specs.Walked.{AreTablesOf};

use crate::source::Source;
use fws_events::runs_keep_step_at_sites;
use fws_load_laws::{load_configs_are_not_refused, load_site_is_read, load_texts_are_read};

/// The tables of a regular walk are regular: a law, with nothing to do.
pub fn regular_walks_make_regular_tables()
    ensures { RegularWalksMakeRegularTables }
{}

/// So are, in each language, those of what a text spells: a law, with nothing to do.
pub fn spelled_tables_are_regular<L: Source>()
    ensures { (site : Site) (text : List ℕ) (config : L.Config) (tables : Tables) → L.spelled site text ≡ Ok config
        → AreTablesOf site (L.walk config site) tables → AreRegular site tables }
{
    L::spelled_walks_are_regular();
    regular_walks_make_regular_tables();
}

/// No reader refuses a generated site or filter, so that what `load` does is to show what they come to: a
/// law, with nothing to do.
pub fn loads_are_shown()
    ensures { LoadsAreShown }
{
    load_configs_are_not_refused();
    load_site_is_read();
    load_texts_are_read();
}

/// That is what the words `load N` ask for, where N spells a number from 1 to 4000: a law, with nothing to
/// do.
pub fn load_words_are_shown()
    ensures { LoadWordsAreShown }
{
    loads_are_shown();
}

/// What is emitted for a configuration keeps step with it. Where an accepted text has this meaning, and its configuration
/// tracks, every text that `Emits` says of its tables, as each does that `translate` writes, spells a configuration that tracks
/// too; and for every list of events this gives the same answers, and the same list of connections behind each of them and at the
/// end, from whatever list both begin with. So from no connections the texts of their runs are the same. A law, with nothing to
/// do.
pub fn translations_keep_step()
    ensures { TranslationsKeepStep }
{
    runs_keep_step_at_sites();
}
