// The table of an accepted text. Laws of the records of the brain maps, and of condition 14, that `filling` is proved by; and demand 2 as
// theorems on `Reads` alone: what is accepted, where each matrix index is found, what packs, and that each stretch makes a short list, its
// map's models by offset. No code: see specs/.
#![tactic(auto)]
