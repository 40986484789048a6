// Inner: boxes of points (bbox.rs).
//
// The family inquire_: box and volume of a body. They are asked by an office (office_measures). Read inquire_bbox, inquire_polyhedral, inquire_box; then, for the
// volume, inquire_fin_starts, where the fins of a loop start, inquire_fan, the fan of those points, inquire_sides, a face as a shell lists it, inquire_regions, the sides of
// the solid regions, inquire_tally, what refuses a body, inquire_volume. In whole numbers (W-201): inquire_corners, points in sixteenths, inquire_whole_fan, inquire_weight, what a side
// adds; the sides and the tally are the same; inquire_stone, which office_sheets asks.
#![tactic(auto)]

pub mod bbox;
