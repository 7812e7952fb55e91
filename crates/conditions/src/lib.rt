// What is proved of the machine's calls: conditions 1 and 3, as theorems about the definitions that
// the contracts of `machine` cite. There is no code here: specs/Trail and specs/Theorems are the
// statements, proofs/ their proofs.
#![tactic(auto)]
