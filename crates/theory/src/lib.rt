// The theory of demand 3: its words, an abstract lock manager, and the proof; there are no functions.
#![tactic(auto)]
