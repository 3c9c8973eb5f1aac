// How long normal words become, as mathematics: no function. specs/ has it.
#![tactic(auto)]
