// How large a search tree can be: statements in specs/, their proofs in proofs/. It has no functions.
#![tactic(auto)]
