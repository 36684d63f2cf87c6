// The page's worked nets, computed by the definitions of the meaning (proofs/). There is no code here.
#![tactic(auto)]
