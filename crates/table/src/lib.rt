// No code: the requirement's starred cases, a table in specs/ with one theorem in proofs/.
#![tactic(auto)]
