// No code: binary STL of a body (W-209), definitions, their evaluations and what is proved of them (specs/). A crate has a function, so here is one.
//
// The family stl_: a body as the triangles that a viewer shows. stl_format says which bytes they are and what is refused, stl_triangles writes a triangle, stl_fan a side's fan, stl_regions the
// sides of a body's solid regions, and stl_writer the whole of it. stl_body says which body is built of such a file (W-210): stl_corners tests it, stl_numbers numbers its vertices and edges, stl_rows,
// stl_mesh_rows and stl_laying lay the records, and stl_reader is the call.
#![tactic(auto)]

pub fn nothing() {}
