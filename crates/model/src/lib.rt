// The published model as a relation, and the reasons of refusal, in specs/; in proofs/ that the own steps of the two
// programs give exactly its rows. There is no code here.
#![tactic(auto)]
