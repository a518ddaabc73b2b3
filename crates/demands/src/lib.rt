// What is promised, in one place: the three demands, the refusals and a worked sheet. No code: the statements are in
// specs/, their proofs in proofs/.
#![tactic(auto)]
