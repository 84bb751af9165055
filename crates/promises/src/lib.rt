// What is promised of journals beyond a single call: theorems about the definitions that the contracts of `journal` cite. There is no code.
#![tactic(auto)]
