// Values of a slab in an order of their keys, for a struct of a slab and a vector of its keys: definitions and lemmas, and no code.
#![tactic(auto)]
