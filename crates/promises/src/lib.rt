// No code: what Borghlisk promises, as theorems in the words of the demands.
//
// Read in this order:
//   proofs/Demands.antt      the three demands over every accepted text, each theorem under its sentence
//   proofs/EntryPoints.antt  demand 1 over what compile, start, feed and answer return
//   proofs/Library.antt      the same over the functions for C and Rust
//   proofs/WholeWay.antt     from a text to a truth, over values that meet the contracts
//   specs/Words.antt, specs/Driving.antt  the words in which they are said
// The demands rest on at most 575 lines of definitions, in the specs folders of the rooms; all promises rest on at most 740 lines,
// as tests/06-belief.sh counts them.
//
// What tries the definitions, and promises nothing more: proofs/Examples.antt (the marked examples), Binding.antt (what request 1 left
// as it was, against the binding of `-` that is gone), Slips.antt and Controls.antt (definitions gone wrong, and that they are right
// with the right choice), Neighbours.antt (false statements next to the demands), WrongPrograms.antt, Never.antt (a refusal that is
// never given). What they alone use is in specs/Examples.
// The laws behind all of them are in proofs/Laws.

#![tactic(auto)]
