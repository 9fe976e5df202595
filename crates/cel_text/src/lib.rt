// What a certification expression's text means: definitions in specs/, and what is true of them in proofs/Laws/.
// There is no code here: the crates above cite these definitions in their contracts.
#![tactic(auto)]
