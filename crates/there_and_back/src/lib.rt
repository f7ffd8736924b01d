// Two transcodings: what a sheet reads as after one, and that it comes back by the second. No code: see specs/.
#![tactic(auto)]
