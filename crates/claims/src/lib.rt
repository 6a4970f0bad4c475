// What holds of every state that a run reaches.
#![tactic(auto)]
