// No code: what is proved of the calls, over their own contracts and from outside their crates.
#![tactic(auto)]
