// What the operations do to panes and tiles: theorems about the rules. All of it stands in specs/; there is no code.
#![tactic(auto)]
