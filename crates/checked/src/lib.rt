// Document 01's checked numbers: no code, one table and one statement about the definitions of the crates below.
#![tactic(auto)]
