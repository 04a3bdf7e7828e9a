// Tables whose entries are the largest numbers that fit: definitions and laws, no code.

#![tactic(auto)]
