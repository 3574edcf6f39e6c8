// The three demands (specs/Demands.antt), what else is promised (specs/Further.antt); theorems: proofs/Theorems.antt.
#![tactic(auto)]
