//! Steps one after the other: the one definition of a chain, for the clauses of several crates.
#![tactic(auto)]
