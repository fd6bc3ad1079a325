// Graphs to and from the solver benches: what the two texts of a sheet are, and the sheet of two texts. It has no
// functions: `export` and `import` are in the crates `graph_export` and `graph_import`.
#![tactic(auto)]
