// Wrong terminals: each is ours with a fault (specs/), and breaks the promise under which it stands (proofs/).
#![tactic(auto)]
