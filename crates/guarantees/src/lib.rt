// The demands at AEGIS-128L, of the exported functions and of every sequence of calls of them. No code.
#![tactic(auto)]
