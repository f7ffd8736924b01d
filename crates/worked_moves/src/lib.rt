// Worked cases of the move between types 1 and 9, computed. No code: see specs/.
#![tactic(auto)]
