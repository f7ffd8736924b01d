// Paper 01's "Sheets at the edges", computed from the definitions that the public promises cite. No code: see specs/.
#![tactic(auto)]
