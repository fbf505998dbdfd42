//! What a server does with the links of its ports: the words of its contracts, and their lemmas. It has no code.
#![tactic(auto)]
