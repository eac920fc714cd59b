//! The limits of texts, sheets, play, plans and options, and the range of numbers.
ghost use Rattle.std.specs.Prelude.{◌≡◌, pos};
ghost use Rattle.rc_base.specs.Clamp.{largest_number};
ghost use Rattle.rc_base.specs.Limits.{most_players, most_cards, most_locations, most_numbers, most_attrs, most_values, most_maps, most_stages, most_sites, most_variables, most_repeats, most_open, most_times, most_in_collection, most_items, most_in_mem, most_references, most_in_list, most_in_bench, largest_seed, most_rounds, most_matches, most_turns, most_turns_in_all, most_workers, most_entries, longest_source, longest_text};

/// The most bytes of a word.
pub const MOST_BYTES: usize = 64;

/// The most lists that are open at one place.
pub const MOST_OPEN: usize = 64;

/// The most players.
pub const MOST_PLAYERS: u8 = 8;

/// The most cards.
pub const MOST_CARDS: u16 = 512;

/// The most locations, and the most stored numbers, of all owners.
pub const MOST_OWNED: u16 = 256;

/// The most attributes, the most values, and the most point maps.
pub const MOST_NAMES: u16 = 256;

/// The most stages.
pub const MOST_STAGES: u16 = 256;

/// The most choices.
pub const MOST_SITES: u8 = 64;

/// The most binders around one place.
pub const MOST_VARIABLES: u32 = 4;

/// The most repeats around one place.
pub const MOST_REPEATS: u32 = 2;

/// The most times that an effect repeats others.
pub const MOST_TIMES: i64 = 1000;

/// The most cards of a collection that count.
pub const MOST_IN_COLLECTION: usize = 512;

/// The most items of a menu.
pub const MOST_ITEMS: usize = 256;

/// The most references that one `mem` holds.
pub const MOST_IN_MEM: usize = 512;

/// The most references that all `mem` hold together.
pub const MOST_REFERENCES: usize = 1024;

/// The most ids in one list of a table: of cards, or the references in a `mem`.
pub const MOST_IN_LIST: usize = MOST_IN_MEM;

/// The most matches of a built-in game.
pub const MOST_IN_BENCH: u64 = 1000;

/// The most matches of a plan.
pub const MOST_MATCHES: u64 = 1 << 12;

/// The largest turn limit.
pub const MOST_TURNS: u64 = 100_000;

/// The most turns of all matches of a plan together.
pub const MOST_TURNS_IN_ALL: u64 = 1 << 18;

/// The most rounds of a rollout.
pub const MOST_ROUNDS: u64 = 1000;

/// The largest deal and seat of a match, and the largest key of a strategy: eighteen digits.
pub const LARGEST_SEED: u64 = 999_999_999_999_999_999;

/// The most workers.
pub const MOST_WORKERS: u64 = 64;

/// The most entries of a cache.
pub const MOST_ENTRIES: u64 = 1 << 16;

/// The most bytes of a sheet with its plan.
pub const LONGEST_SOURCE: usize = 1 << 20;

/// The most bytes of a sheet with its plan and the transcript of a house.
pub const LONGEST_TEXT: usize = 1 << 25;

/// The largest number of a game. The least one is as far below 0.
pub const LARGEST_NUMBER: i64 = 1_000_000_000;

/// The limits and the range of numbers are those of the definitions. The function does nothing: its contract is proved
/// by computing.
pub fn limits_as_defined()
    ensures players { MOST_PLAYERS ≡ most_players }
    ensures cards { MOST_CARDS ≡ most_cards }
    ensures locations { MOST_OWNED ≡ most_locations }
    ensures numbers { MOST_OWNED ≡ most_numbers }
    ensures attributes { MOST_NAMES ≡ most_attrs }
    ensures values { MOST_NAMES ≡ most_values }
    ensures maps { MOST_NAMES ≡ most_maps }
    ensures stages { MOST_STAGES ≡ most_stages }
    ensures choices { MOST_SITES ≡ most_sites }
    ensures variables { MOST_VARIABLES ≡ most_variables }
    ensures repeats { MOST_REPEATS ≡ most_repeats }
    ensures open { MOST_OPEN ≡ most_open }
    ensures times { MOST_TIMES ≡ pos most_times }
    ensures collections { MOST_IN_COLLECTION ≡ most_in_collection }
    ensures items { MOST_ITEMS ≡ most_items }
    ensures in_mem { MOST_IN_MEM ≡ most_in_mem }
    ensures references { MOST_REFERENCES ≡ most_references }
    ensures in_list { MOST_IN_LIST ≡ most_in_list }
    ensures bench { MOST_IN_BENCH ≡ most_in_bench }
    ensures matches { MOST_MATCHES ≡ most_matches }
    ensures turns { MOST_TURNS ≡ most_turns }
    ensures turns_in_all { MOST_TURNS_IN_ALL ≡ most_turns_in_all }
    ensures rounds { MOST_ROUNDS ≡ most_rounds }
    ensures seeds { LARGEST_SEED ≡ largest_seed }
    ensures workers { MOST_WORKERS ≡ most_workers }
    ensures entries { MOST_ENTRIES ≡ most_entries }
    ensures source { LONGEST_SOURCE ≡ longest_source }
    ensures text { LONGEST_TEXT ≡ longest_text }
    ensures range { LARGEST_NUMBER ≡ pos largest_number }
{}
