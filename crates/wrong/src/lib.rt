// Wrong engines, each refuted on a named input (proofs/). There is no code here.
#![tactic(auto)]
