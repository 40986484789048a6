// No code: reading what was written gives the same model, and an accepted image is the one that is written (W-202), theorems over the definitions of `image_format` (specs/). A crate has a function, so here is one.
//
// Read specs/Statements.antt, what holds. specs/Starts.antt, bytes that begin with what is written, is what `image_record_test` and `image_accepted` cut an image into its tests by.
#![tactic(auto)]

pub fn nothing() {}
