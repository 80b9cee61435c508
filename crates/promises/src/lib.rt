// Theorems about the rules of the public calls, in specs/ and proofs/: when each refuses, with which number, and which programs no contract lets through. There is no code here.
#![tactic(auto)]
