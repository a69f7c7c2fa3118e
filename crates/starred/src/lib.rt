// The cases with a star (§10.3), one collection, stated and proved of the definitions, in specs/.
// There is no code.
#![tactic(auto)]
