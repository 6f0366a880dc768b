// What a pattern means and how it is searched for stand in specs/, what is proved of it in proofs/. There is no code.
#![tactic(auto)]
