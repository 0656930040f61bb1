// Document 01's "Cases for the table of proofs", each a theorem by computation. Mathematics only: no code.
#![tactic(auto)]
