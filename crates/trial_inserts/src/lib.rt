// Inner: the trial stone (01, "Trial stone"), laid out by inserts and appended entries, as meaning/specs/Stone.antt has it.
//
// The family trial_: 01's trial stone, by the calls. trial_inserts lays it out; trialstone, the program that 01 names, counts what there is of it before
// and behind a split; trial_rows prints the rows of 01's table, the faults of a report by trial_faults.
#![tactic(auto)]

use edit_core::Inserted;
use edit_inserts::{
    insert_body, insert_curve, insert_edge, insert_face, insert_fin, insert_loop, insert_region,
    insert_shell, insert_surface, insert_vertex,
};
use edit_make::make;
use float_vectors::vector::{Point3, Vec3};
use geom_carriers::Carrier;
use geom_lines_planes::curve::Line;
use geom_lines_planes::surface::Plane;
use geom_lines_planes::tolerance::Tolerance;
use memory_layout::names::{
    BODY_REGIONS, EDGE_FINS, FACE_LOOPS, LOOP_FINS, REGION_SHELLS, SHELL_FACES,
};
use memory_records::records::{BodyKind, sense_of};
use office_bodies::append_entry;

// Its capacities leave room for one split.
pub const ROOM: [usize; 10] = [1, 2, 2, 6, 6, 26, 13, 9, 12, 6];

// The drawing office whose stone it is.
pub const OFFICE: u32 = 0;

// Corner i has x = 4 where i has bit 0, y = 3 for bit 1, z = 2 for bit 2.
const CORNERS: [Point3; 8] = [
    Point3 {
        x: 0.0,
        y: 0.0,
        z: 0.0,
    },
    Point3 {
        x: 4.0,
        y: 0.0,
        z: 0.0,
    },
    Point3 {
        x: 0.0,
        y: 3.0,
        z: 0.0,
    },
    Point3 {
        x: 4.0,
        y: 3.0,
        z: 0.0,
    },
    Point3 {
        x: 0.0,
        y: 0.0,
        z: 2.0,
    },
    Point3 {
        x: 4.0,
        y: 0.0,
        z: 2.0,
    },
    Point3 {
        x: 0.0,
        y: 3.0,
        z: 2.0,
    },
    Point3 {
        x: 4.0,
        y: 3.0,
        z: 2.0,
    },
];

// The start and the end of each edge; four edges run along each axis.
const STARTS: [u32; 12] = [0, 2, 4, 6, 0, 1, 4, 5, 0, 1, 2, 3];

const ENDS: [u32; 12] = [1, 3, 5, 7, 2, 3, 6, 7, 4, 5, 6, 7];

const AXES: [Vec3; 3] = [
    Vec3 {
        x: 1.0,
        y: 0.0,
        z: 0.0,
    },
    Vec3 {
        x: 0.0,
        y: 1.0,
        z: 0.0,
    },
    Vec3 {
        x: 0.0,
        y: 0.0,
        z: 1.0,
    },
];

// The edge of each fin, four fins to a face; the first two of a face are positive.
const EDGES: [u32; 24] = [
    4, 1, 5, 0, 2, 7, 3, 6, 0, 9, 2, 8, 10, 3, 11, 1, 8, 6, 10, 4, 5, 11, 7, 9,
];

// The two fins of each edge.
const FINS: [u32; 24] = [
    3, 8, 1, 15, 4, 10, 6, 13, 0, 19, 2, 20, 7, 17, 5, 22, 11, 16, 9, 23, 12, 18, 14, 21,
];

// A corner of each face, and its normal.
const BASES: [usize; 6] = [0, 4, 0, 2, 0, 1];

const NORMALS: [Vec3; 6] = [
    Vec3 {
        x: 0.0,
        y: 0.0,
        z: -1.0,
    },
    Vec3 {
        x: 0.0,
        y: 0.0,
        z: 1.0,
    },
    Vec3 {
        x: 0.0,
        y: -1.0,
        z: 0.0,
    },
    Vec3 {
        x: 0.0,
        y: 1.0,
        z: 0.0,
    },
    Vec3 {
        x: -1.0,
        y: 0.0,
        z: 0.0,
    },
    Vec3 {
        x: 1.0,
        y: 0.0,
        z: 0.0,
    },
];

fn stands(answer: Inserted) -> bool {
    match answer {
        Inserted::At(_) => true,
        Inserted::Refused(_) => false,
    }
}

// The body, its void and its solid region, each with its shell.
fn put_body(room: &[usize; 10], words: &mut [u32; 8379], reals: &mut [f64; 158]) -> bool {
    let mut ok = stands(insert_body(
        room,
        &mut words[..],
        &mut reals[..],
        OFFICE,
        BodyKind::Solid,
    ));
    for i in 0..2 {
        ok = ok & stands(insert_region(room, &mut words[..], &mut reals[..], 0, i == 1));
        ok = ok & stands(insert_shell(room, &mut words[..], &mut reals[..], i));
        ok = ok & (append_entry(room, &mut words[..], &reals[..], OFFICE, BODY_REGIONS, 0, i) == 0);
        ok = ok
            & (append_entry(
                room,
                &mut words[..],
                &reals[..],
                OFFICE,
                REGION_SHELLS,
                i as usize,
                i,
            ) == 0);
    }
    ok
}

fn put_vertices(room: &[usize; 10], words: &mut [u32; 8379], reals: &mut [f64; 158]) -> bool {
    let mut ok = true;
    for corner in CORNERS {
        ok = ok
            & stands(insert_vertex(
                room,
                &mut words[..],
                &mut reals[..],
                corner,
                Tolerance::Session,
            ));
    }
    ok
}

// The line of edge i.
fn put_line(room: &[usize; 10], words: &mut [u32; 8379], reals: &mut [f64; 158], i: usize) -> bool {
    if 12 <= i {
        return false;
    }
    let line = Line {
        origin: CORNERS[(STARTS[i] % 8) as usize],
        direction: AXES[i / 4],
    };
    stands(insert_curve(room, &mut words[..], &mut reals[..], Carrier::Line(line)))
}

// The two fins of edge i, in its list.
fn list_fins(room: &[usize; 10], words: &mut [u32; 8379], reals: &[f64; 158], i: usize) -> bool {
    if 12 <= i {
        return false;
    }
    let a = append_entry(
        room,
        &mut words[..],
        &reals[..],
        OFFICE,
        EDGE_FINS,
        i,
        FINS[2 * i],
    );
    let b = append_entry(
        room,
        &mut words[..],
        &reals[..],
        OFFICE,
        EDGE_FINS,
        i,
        FINS[2 * i + 1],
    );
    (a == 0) & (b == 0)
}

fn put_edge(
    room: &[usize; 10],
    words: &mut [u32; 8379],
    reals: &mut [f64; 158],
    i: usize,
    curve: u32,
) -> bool {
    if 12 <= i {
        return false;
    }
    let lies = put_line(room, words, reals, i);
    let put = stands(insert_edge(
        room,
        &mut words[..],
        &mut reals[..],
        Some(STARTS[i]),
        Some(ENDS[i]),
        Some(curve),
        Tolerance::Session,
    ));
    let listed = list_fins(room, words, reals, i);
    lies & put & listed
}

fn put_edges(room: &[usize; 10], words: &mut [u32; 8379], reals: &mut [f64; 158]) -> bool {
    let mut ok = true;
    for i in 0..12 {
        ok = ok & put_edge(room, words, reals, i as usize, i);
    }
    ok
}

// The plane of face i.
fn put_plane(
    room: &[usize; 10],
    words: &mut [u32; 8379],
    reals: &mut [f64; 158],
    i: usize,
) -> bool {
    if 6 <= i {
        return false;
    }
    let plane = Plane {
        origin: CORNERS[BASES[i] % 8],
        normal: NORMALS[i],
    };
    stands(insert_surface(room, &mut words[..], &mut reals[..], Carrier::Plane(plane)))
}

// A face in the lists of both shells, and its loop in its own.
fn list_face(
    room: &[usize; 10],
    words: &mut [u32; 8379],
    reals: &[f64; 158],
    i: usize,
    id: u32,
) -> bool {
    let a = append_entry(room, &mut words[..], &reals[..], OFFICE, SHELL_FACES, 0, id);
    let b = append_entry(room, &mut words[..], &reals[..], OFFICE, SHELL_FACES, 1, id);
    let c = append_entry(room, &mut words[..], &reals[..], OFFICE, FACE_LOOPS, i, id);
    (a == 0) & (b == 0) & (c == 0)
}

// A face, of the void's shell in front and the material's behind, and its loop.
fn put_face(
    room: &[usize; 10],
    words: &mut [u32; 8379],
    reals: &mut [f64; 158],
    i: usize,
    id: u32,
) -> bool {
    let lies = put_plane(room, words, reals, i);
    let face = stands(insert_face(
        room,
        &mut words[..],
        &mut reals[..],
        Some(0),
        Some(1),
        Some(id),
        sense_of(0),
    ));
    let rim = stands(insert_loop(room, &mut words[..], &mut reals[..], id));
    let listed = list_face(room, words, reals, i, id);
    lies & face & rim & listed
}

fn put_faces(room: &[usize; 10], words: &mut [u32; 8379], reals: &mut [f64; 158]) -> bool {
    let mut ok = true;
    for i in 0..6 {
        ok = ok & put_face(room, words, reals, i as usize, i);
    }
    ok
}

fn put_fins(room: &[usize; 10], words: &mut [u32; 8379], reals: &mut [f64; 158]) -> bool {
    let mut ok = true;
    for (i, edge) in EDGES.iter().enumerate() {
        let fin = i as u32;
        ok = ok
            & stands(insert_fin(
                room,
                &mut words[..],
                &mut reals[..],
                fin / 4,
                *edge,
                sense_of(fin % 4 / 2),
                false,
            ));
        ok = ok
            & (append_entry(
                room,
                &mut words[..],
                &reals[..],
                OFFICE,
                LOOP_FINS,
                i / 4,
                fin,
            ) == 0);
    }
    ok
}

// Whether the whole stone stands in the lent memory.
pub fn trial_stone(room: &[usize; 10], words: &mut [u32; 8379], reals: &mut [f64; 158]) -> bool {
    let made = make(room, &mut words[..], &mut reals[..], 0.001, 1) == 0;
    let body = put_body(room, words, reals);
    let vertices = put_vertices(room, words, reals);
    let edges = put_edges(room, words, reals);
    let faces = put_faces(room, words, reals);
    let fins = put_fins(room, words, reals);
    made & body & vertices & edges & faces & fins
}
