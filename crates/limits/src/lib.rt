// The limits of 01 and 02, and the numbers of the refusals, each named once. `specs/` has the same names.
#![tactic(auto)]

pub mod engine; // engine.rt: the engines by their numbers
pub mod refusals; // refusals.rt: why a call is refused

// The most fields of a sheet, and the length of an array with a word for each of them.
pub const MOST_FIELDS: u32 = 24;

pub const FIELDS: usize = MOST_FIELDS as usize;

// The most settings of a field, and the length of an array with a word for each of them.
pub const MOST_SETTINGS: u32 = 24;

pub const SETTINGS: usize = MOST_SETTINGS as usize;

// The largest setting, and the largest number c of a rule or triple, in micrometres.
pub const LARGEST_SETTING: u32 = 1000000;

// How far the distance of a pair may be from c under kind 5, in micrometres.
pub const ENCODER_TOLERANCE: u64 = 2;

// The largest reach, at which the neighbourhood of a field is every field.
pub const WHOLE_REACH: u32 = 24;

pub const MOST_RULES: u32 = 276;

pub const MOST_TRIPLES: u32 = 32;

pub const LAST_KIND: u32 = 5;

// The kind that is read but no longer written.
pub const RETIRED_KIND: u32 = 2;

// The most bytes and the most numbers of a sheet.
pub const MOST_BYTES: usize = 29273;

pub const MOST_NUMBERS: usize = 8184;

// The most events of a session, and the length of the array that holds them.
pub const MOST_EVENTS: u32 = 64;

pub const EVENTS: usize = MOST_EVENTS as usize;

// The least words of the offers list and of the two work spaces.
pub const OFFERS_WORDS: usize = 24;

pub const ROWS_WORDS: usize = 13248;

pub const MEMORY_WORDS: usize = 13824;

// The words of one of the two tables that the first work space holds.
pub const TABLE_WORDS: usize = 6624;

// What closing by AC-4 has (02, request 5): the words of the counts towards a field, five for each field, one for each binary digit of a
// count; the words of all counts; those of all support sets, one for each setting and field; and a place for each setting.
pub const COUNTS_WORDS: usize = 120;

pub const COUNTER_WORDS: usize = 2880;

pub const SUPPORT_WORDS: usize = 13824;

pub const LIST_PLACES: usize = 576;

// The table of the triple rules: the words before the first of them, those of one, and those of the whole table.
pub const TRIPLES_FRONT: usize = 49;

pub const TRIPLE_WORDS: usize = 579;

pub const TRIPLES_WORDS: usize = 18577;

// The most bytes of the text that the program prints: 24 lines of at most 2 + 1 + 24 * (1 + 10) + 1.
pub const TEXT_BYTES: usize = 6432;
