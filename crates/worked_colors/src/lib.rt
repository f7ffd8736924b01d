// Worked colors, as they are shown and for the plotter, computed. No code: see specs/.
#![tactic(auto)]
