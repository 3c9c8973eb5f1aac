// The steps of exact synthesis, as mathematics: no function. specs/ has it.
#![tactic(auto)]
