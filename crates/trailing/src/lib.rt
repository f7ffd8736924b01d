// Bytes that follow the last scanline are ignored: the law about two files that begin alike.
#![tactic(auto)]
