// Every step from a well-formed state gives a well-formed one.
#![tactic(auto)]
