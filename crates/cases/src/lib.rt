// The sheets with known results to prove: M1 to M12 as one list with a lone theorem, over the planner's definitions.
#![tactic(auto)]
