// Statements over the definitions of several crates, proved together: the close comparisons of document 01. There is no code here; proofs/ has them.

#![tactic(auto)]
