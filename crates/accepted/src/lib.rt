// Theorems only: what an accepted spec's tree is, before its repair and after it (specs/Accepted.antt).
#![tactic(auto)]
