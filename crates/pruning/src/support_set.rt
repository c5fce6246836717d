// S of Figure 2: for each setting (j, b) the set of the settings that it supports. The mask of field i in S_jb is the word at
// 24 (24 j + b) + i, where 24 j + b is the number of the setting.
ghost use Rattle.std.specs.Prelude.{◌<◌};
ghost use Rattle.limits.specs.Limits.{most_fields, list_places};
ghost use Rattle.pruning.specs.SupportSet.{SetOf};

use limits::{FIELDS, SUPPORT_WORDS};

// S_jb, where x is the number of (j, b).
pub fn support_set(support: &[u32; SUPPORT_WORDS], x: usize) -> [u32; FIELDS]
    requires { x < list_places }
    ensures { SetOf support.now x most_fields result }
{
    let mut s = [0u32; FIELDS];
    s.copy_from_slice(&support[x * FIELDS..x * FIELDS + FIELDS]);
    s
}
