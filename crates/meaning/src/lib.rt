// No code: what the calls mean, over the model, definitions (specs/). A crate has a function, so here is one.
//
// The family meaning: all that must be believed of the calls, beside the layout of the lent memory. Read meaning in the order of docs/MEANING.md; meaning_examples
// evaluates it, meaning_split_laws proves of it what splits keep, meaning_isolation that nothing else than what is reached from a body makes a difference to it, meaning_office_laws what splits by two offices keep; meaning_sheets has the yard's stone sheet (W-201), meaning_sheet_laws and meaning_sheet_floats prove what holds of it; meaning_of_calls says that the calls answer it; meaning_list_laws serves the proofs alone.
#![tactic(auto)]

pub fn nothing() {}
