// What shows that the search on bytes is the search on trees: definitions in specs/, laws in proofs/. There is no code.
#![tactic(auto)]
