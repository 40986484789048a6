// The tolerance in effect (tolerance.rs; W-211).
ghost use Rattle.std.specs.Prelude.{◌≡◌};
ghost use Rattle.geom_lines_planes.specs.Geometry.{rule, effective};
ghost use Rattle.geom_lines_planes.specs.declared.tolerance.Version.TheVariants.{Second};

// A record's own tolerance, or none: then the session's holds.
#[derive(Clone, Copy)]
pub enum Tolerance {
    Own(f64),
    Session,
}

// The version of the drawing practice that a model goes by.
#[derive(Clone, Copy)]
pub enum Version {
    First,
    Second,
}

// The larger of the two, the own where neither is.
fn larger(own: f64, session: f64) -> f64
    ensures { result ≡ rule Second own session }
{
    if own < session {
        return session;
    }
    own
}

// Which of a record's own tolerance and the session's holds.
fn rule(version: Version, own: f64, session: f64) -> f64
    ensures { result ≡ rule version own session }
{
    match version {
        Version::First => own,
        Version::Second => larger(own, session),
    }
}

// The session's is half the precision, so that two exact entities within tolerance of each other are coincident.
pub fn effective_tolerance(version: Version, local: Tolerance, precision: f64) -> f64
    ensures { result ≡ effective version local precision }
{
    let session = precision * 0.5;
    match local {
        Tolerance::Own(value) => rule(version, value, session),
        Tolerance::Session => session,
    }
}
