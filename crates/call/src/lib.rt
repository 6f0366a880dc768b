// The shape of a call stands in specs/, what is proved of every call in proofs/. There is no code.
#![tactic(auto)]
