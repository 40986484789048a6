// No code: what a call's lent memory held at entry, and how an answer that is an enum crosses to C. `specs/Lent.antt` has the definitions.
//
// The family c_: how the calls cross to C; a C program's numbers go in, the answer's number and values in lent slots come out. All of it is inner:
// `station` exports it. Read c_lent; c_values, records as numbers, and by it c_lookups, c_queries, c_inserts, c_sets; c_answers, boxes, volumes, splits
// and reports as numbers, and by it c_measures; c_sheets, a stone sheet in slots; c_images.
#![tactic(auto)]

pub fn nothing() {}
