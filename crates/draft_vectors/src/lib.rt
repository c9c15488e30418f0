// The draft's test vectors, computed from the definitions by the checker. No code.
#![tactic(auto)]
