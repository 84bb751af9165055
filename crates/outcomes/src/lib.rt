// One outcome: of each public function of every crate, a second result or a second final memory that fits its contract is equal to the first.
#![tactic(auto)]
