// The three demands of the planner, of its definitions and of its calls: what follows of the contracts of `plan` and
// `check`. Statements in specs/, their proofs in proofs/.
#![tactic(auto)]
