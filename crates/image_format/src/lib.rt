// No code: the image of a model, and the model in an image (W-202, W-211, W-206), over the model of `meaning`; docs/IMAGE.md has the format for a person. A crate has a function, so here is one.
//
// The family image_: a model kept as bytes. Call image_writer and image_reader. Read image_format, what the bytes are; image_laws, that nothing is lost; image_bytes, numbers and floats in lent
// bytes; image_records, one record written, and image_writer; image_record_test, one record tested, image_accepted, all of them, image_loading, what is laid over the memory, and image_reader;
// image_effects says what the calls do to the model.
#![tactic(auto)]

pub fn nothing() {}
