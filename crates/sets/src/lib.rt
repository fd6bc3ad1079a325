// Sets of numbers as tests, and tests, sums and searches below a bound: definitions that every crate above cites, with
// their laws. It has no code to call: code on sets of vertices is in `vset` and `rows`.
#![tactic(auto)]
