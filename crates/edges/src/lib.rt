// The edges of the scope, both sides of each, and more cases: tables that the checker computes from the definitions. There is no code.
#![tactic(auto)]
