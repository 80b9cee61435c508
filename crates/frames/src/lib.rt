// Theorems about the rules of layout, in specs/. There is no code here.
#![tactic(auto)]
