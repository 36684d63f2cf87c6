// What document 01 says, as definitions over bytes (specs/) with their laws (proofs/). There is no code here to run.
#![tactic(auto)]
