// Why a call is refused (01, "Refusal numbers, as in `ErrorCode`"; W-201's fifth), and the number of each.
ghost use Rattle.std.specs.Prelude.{◌≡◌};
ghost use Rattle.geom_lines_planes.specs.Refusals.{refusal, number_of};

#[derive(Clone, Copy, PartialEq, Eq)]
pub enum Refusal {
    BadArgument,
    NotFound,
    Degenerate,
    OffGrid,
    NotSolid,
    Unresolved,
    NoRoom,
    Unreadable,
    // A number that 01 does not give.
    Other(u32),
}

impl Refusal {
    // The refusal of a number.
    pub fn of(n: u32) -> Refusal
        ensures { result ≡ refusal n }
    {
        match n {
            1 => Refusal::BadArgument,
            2 => Refusal::NotFound,
            4 => Refusal::Degenerate,
            5 => Refusal::OffGrid,
            6 => Refusal::NotSolid,
            7 => Refusal::Unresolved,
            8 => Refusal::NoRoom,
            9 => Refusal::Unreadable,
            _ => Refusal::Other(n),
        }
    }

    // Its number.
    pub fn number(self) -> u32
        ensures { result ≡ number_of self }
    {
        match self {
            Refusal::BadArgument => 1,
            Refusal::NotFound => 2,
            Refusal::Degenerate => 4,
            Refusal::OffGrid => 5,
            Refusal::NotSolid => 6,
            Refusal::Unresolved => 7,
            Refusal::NoRoom => 8,
            Refusal::Unreadable => 9,
            Refusal::Other(n) => n,
        }
    }
}
