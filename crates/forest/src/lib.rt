// What a repaired arena holds: a ghost forest, and the theorems about the rules that rest on it. All of it stands in specs/; there is no code.
#![tactic(auto)]
