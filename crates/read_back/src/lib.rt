// What the writer writes reads back: the law.
#![tactic(auto)]
