// What proofs by hand share: rules for walks over a function's MIR, for functions that the toolchain's own walk doesn't cover. There is no
// code here, and no definition that a contract cites.
#![tactic(auto)]
