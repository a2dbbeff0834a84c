// Nothing runs here: what a split is is in specs/, and what holds of it in proofs/. Crate `split_parts` works out the parts of a size, and `split_amount` splits.
#![tactic(auto)]
