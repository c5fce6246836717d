// What closing by AC-4 keeps from one test to the next.
ghost use Rattle.closing.specs.Asks.{Blank};

use counter::Counter;
use limits::{COUNTER_WORDS, LIST_PLACES, SUPPORT_WORDS};
use removal_list::RemovalList;

// Counter, S and listAC of Figure 2; tests work on `copy`, which equals `counter` before and after each.
#[derive(Drop)]
pub struct Ac4 {
    pub counter: Counter,
    pub copy: Counter,
    pub support: [u32; SUPPORT_WORDS],
    pub list: RemovalList,
}

impl Ac4 {
    // No support set, no count, nothing listed (lines 1 to 4 of SAC_2).
    pub fn new() -> Ac4
        ensures { Blank result }
    {
        let counter = Counter {
            counts: [0; COUNTER_WORDS],
            spent: 0,
        };
        Ac4 {
            counter,
            copy: counter,
            support: [0; SUPPORT_WORDS],
            list: RemovalList {
                places: [0; LIST_PLACES],
                tail: 0,
            },
        }
    }
}
