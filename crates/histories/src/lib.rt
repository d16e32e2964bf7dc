// No code: histories of some lists of entries, a table in specs/ with one theorem in proofs/.
#![tactic(auto)]
