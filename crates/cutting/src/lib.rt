// How a run is cut into pieces of at most 32,767 pixels, and its words in types 9 and 10. No code: see specs/, and docs/CUTTING.md.
#![tactic(auto)]
