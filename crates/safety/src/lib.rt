// No live cell is handed back.
#![tactic(auto)]
