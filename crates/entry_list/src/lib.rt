// The list of entries that the programs order and logger keep: D = 8, K = 4,294,967,295, C = 512, so that every entry has a key.
#![tactic(auto)]

ghost use Rattle.std.specs.Prelude.{◌≡◌, length, true};
ghost use Rattle.meaning.specs.Reading.{is_list};
ghost use Rattle.meaning.specs.Layer.Listed.{Listed};
ghost use Rattle.entry_list.specs.EntryList.{list_words, fresh_words};

use settings::Settings;

const DIMENSIONS: u32 = 8;

const LARGEST_KEY: u32 = 4294967295;

const CELLS: u32 = 512;

// The words 1: 5 + D + C x (6 + D).
pub const WORDS: usize = 7181;

// The settings of a list that is one: the check is made once, and whoever keeps the list to himself needs no other.
fn settings_of(words: &[u32]) -> Settings
    requires { is_list words.now ≡ true }
    ensures { Listed words.now result }
{
    is_list::is_list(words).unwrap().settings
}

// Sets it up in an array of that length, and answers its settings.
pub fn set_up(words: &mut [u32]) -> Settings
    requires { length words.old ≡ list_words }
    ensures fresh { words.new ≡ fresh_words }
    ensures listed { Listed words.new result }
{
    mdlist::mdlist_set_up(DIMENSIONS, LARGEST_KEY, CELLS, words);
    settings_of(words)
}
