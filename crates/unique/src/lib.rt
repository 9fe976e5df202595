// Each public function has one answer: any two that meet its contract are equal, and so is all that they leave in what was lent.
// What is said is in specs/, and of which function in proofs/, over the contracts themselves. There is no code here, and nothing rests on this crate.
#![tactic(auto)]
