// Settings without a count leave the set and enter the removal list.
ghost use Rattle.std.specs.Prelude.{◌≡◌, ◌+◌, ◌^◌, ◌≤◌, ◌<◌};
ghost use Rattle.limits.specs.Limits.{most_fields, list_places};
ghost use Rattle.limits.specs.Refusals.{is_wiped, fields_in};
ghost use Rattle.masks.specs.Sets.{count};
ghost use Rattle.removal_list.specs.Count.{Small};
ghost use Rattle.pruning.specs.Drop.{Dropped, meets};

use limits::FIELDS;
use limits::refusals::WipedOut;
use masks::one_bit;
use masks::positions::positions;
use removal_list::{RemovalList, move_out};

// Whether a setting of the first `wide` fields is in both sets.
pub fn meet(d: &[u32; FIELDS], none: &[u32; FIELDS], wide: usize) -> bool
    requires { wide ≤ most_fields }
    ensures { result ≡ meets wide d.now none.now }
{
    let mut both: u32 = 0;
    for i in 0..wide {
        both |= d[i] & none[i];
    }
    both != 0
}

// Lines 5 to 8 of pruneAC, 8 to 11 of initializeAC, for the fields i of near and all a at once: the settings of `none`, whose count is 0,
// leave D where they are still there, and enter the list. The fields that lost settings. It ends where a field has nothing left.
pub fn drop(
    d: &mut [u32; FIELDS],
    none: &[u32; FIELDS],
    near: u32,
    list: &mut RemovalList,
) -> Result<u32, WipedOut>
    requires { Small d.old × (near < 2 ^ most_fields) × (list.old.tail + count d.old ≤ list_places) }
    ensures { Dropped near none.now d.old list.old.places list.old.tail (is_wiped result) (fields_in result)
        d.new list.new.places list.new.tail }
{
    let mut lost: u32 = 0;
    for i in positions(near) {
        let gone = d[i] & none[i];
        if gone != 0 {
            move_out(d, i, gone, list);
            if d[i] == 0 {
                return Err(WipedOut);
            }
            let field = one_bit(i);
            lost |= field;
        }
    }
    Ok(lost)
}
