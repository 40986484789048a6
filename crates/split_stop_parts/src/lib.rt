// Inner: what is told of a refusal, in seven words (specs/Told.antt): the stop at a part of a row, and of two stops the first.
//
// split_stop_edge has rows 1 to 8 of a split, split_stop_place rows 9 to 11, split_stop_room rows 12 and 13; call split_stops.
#![tactic(auto)]

ghost use Rattle.std.specs.Prelude.{◌≡◌};
ghost use Rattle.split_stop_parts.specs.Told.{tell_at, first_told};

// The refusal's number, or 0; its row and part; the record's class and id; those of the record that names it. The class 10 is no record.
#[derive(Clone, Copy)]
pub struct Stop {
    pub number: u32,
    pub row: u32,
    pub part: u32,
    pub class: u32,
    pub id: usize,
    pub parent: u32,
    pub over: usize,
}

// The stop at a part with this refusal, or accepted where it is 0.
pub fn stop_at(
    row: u32,
    part: u32,
    number: u32,
    class: u32,
    id: usize,
    parent: u32,
    over: usize,
) -> Stop
    ensures { result ≡ tell_at row part number class id parent over }
{
    if number == 0 {
        return Stop {
            number: 0,
            row: 0,
            part: 0,
            class: 10,
            id: 0,
            parent: 10,
            over: 0,
        };
    }
    Stop {
        number,
        row,
        part,
        class,
        id,
        parent,
        over,
    }
}

// At an edge, which no record names.
pub fn on_edge(row: u32, part: u32, number: u32, edge: usize) -> Stop
    ensures { result ≡ tell_at row part number 6 edge 10 0 }
{
    stop_at(row, part, number, 6, edge, 10, 0)
}

// At a record that an edge names.
pub fn of_edge(row: u32, part: u32, number: u32, class: u32, id: usize, edge: usize) -> Stop
    ensures { result ≡ tell_at row part number class id 6 edge }
{
    stop_at(row, part, number, class, id, 6, edge)
}

// The stop a, or where it is none, b.
pub fn first(a: Stop, b: Stop) -> Stop
    ensures { result ≡ first_told a b }
{
    if a.number != 0 {
        return a;
    }
    b
}
