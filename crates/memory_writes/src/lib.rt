// Inner: writing into the lent memory, into a part of it and into one record. `specs/Put.antt` says what a write leaves; `Frame.antt` has the one law of
// what a write into one record keeps, `Kept.antt` what follows for the model.
#![tactic(auto)]

pub mod put;
pub mod write;
