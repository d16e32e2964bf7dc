// No code: what a list of starts and turns comes to, as definitions in specs/, and the proof that it is linearizable in proofs/.
#![tactic(auto)]
