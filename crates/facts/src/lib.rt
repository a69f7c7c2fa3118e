// General facts below the domain, stated and proved in specs/. There is no code.
#![tactic(auto)]
