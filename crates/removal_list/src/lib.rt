// listAC of Figure 2 of source document 004: the removal list. A setting is on it by its number, 24 times its field and its position. The
// places up to the tail hold the settings that entered, in order; no setting enters again, so there is a place for each.
#![tactic(auto)]

ghost use Rattle.std.specs.Prelude.{◌≡◌, ◌+◌, ◌≤◌, ◌<◌, get_or};
ghost use Rattle.limits.specs.Limits.{most_fields, list_places};
ghost use Rattle.masks.specs.Bits.{Within};
ghost use Rattle.masks.specs.Sets.{count};
ghost use Rattle.removal_list.specs.Count.{Small};
ghost use Rattle.removal_list.specs.Moved.{Moved, without};

use limits::{FIELDS, LIST_PLACES, SETTINGS};
use masks::clear_bit;
use masks::positions::positions;

// The settings that entered are at the places before the tail.
#[derive(Drop)]
pub struct RemovalList {
    pub places: [u32; LIST_PLACES],
    pub tail: usize,
}

// Takes the settings `gone` of field i from the set and puts them at the end of the list (lines 6 to 8 of pruneAC, 9 to 11 of
// initializeAC). A setting is marked in M where it was in the set once and is not now.
pub fn move_out(d: &mut [u32; FIELDS], i: usize, gone: u32, list: &mut RemovalList)
    requires { Small d.old × (i < most_fields) × Within gone (get_or d.old i 0) × (list.old.tail + count d.old ≤ list_places) }
    ensures { Moved d.old list.old.places list.old.tail d.new list.new.places list.new.tail
        × (d.new ≡ without d.old i gone) }
{
    for a in positions(gone) {
        // 6 and 7 of pruneAC, 9 and 10 of initializeAC
        d[i] = clear_bit(d[i], a);
        // 8 of pruneAC, 11 of initializeAC
        list.places[list.tail] = (i * SETTINGS + a) as u32;
        list.tail += 1;
    }
}
