// The cases that the scope asks to be proved: a table in specs/, one theorem in proofs/. No code.
#![tactic(auto)]
