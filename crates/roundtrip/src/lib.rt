// Theorems only: a table is read back from its bytes, and a tree's own table, written and read, gives the same tree (specs/RoundTrip.antt).
#![tactic(auto)]
