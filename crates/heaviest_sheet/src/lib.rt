// The sheet of the heaviest job, and what is shown of it: statements in specs/, their proofs in proofs/. It has no
// functions: `heaviest` is in the crate of that name.
#![tactic(auto)]
