// The maximal end components of a table, its nodes and their depths: definitions and their theorem (specs/Law.antt). There is no code:
// the theorem stands on contracts of the crates above that cite it.
#![tactic(auto)]
