// The order in which an engine visits the fields.
ghost use Rattle.std.specs.Prelude.{◌≡◌};
ghost use Rattle.ledger.specs.Occurrences.{occurrences};
ghost use Rattle.ledger.specs.Ledger.{is_order};

// How often a field occurs.
fn occurrences(order: &[u8], f: usize) -> usize
    ensures { result ≡ occurrences f order.now }
{
    order.iter().filter(|g| **g as usize == f).count()
}

// Whether the list has n bytes and holds every field just one time.
#[tactic(auto, using(crate::proofs::Counts::order_refused))]
pub fn is_order(order: &[u8], n: usize) -> bool
    ensures { result ≡ is_order n order.now }
{
    if order.len() != n {
        return false;
    }
    for f in 0..n {
        if occurrences(order, f) != 1 {
            return false;
        }
    }
    true
}
