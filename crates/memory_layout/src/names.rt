// Tables, lists and places by name, as `specs/Names.antt` has them.
// The tables, in the order of 01's largest tables.

pub const BODIES: usize = 0;

pub const REGIONS: usize = 1;

pub const SHELLS: usize = 2;

pub const FACES: usize = 3;

pub const LOOPS: usize = 4;

pub const FINS: usize = 5;

pub const EDGES: usize = 6;

pub const VERTICES: usize = 7;

pub const CURVES: usize = 8;

pub const SURFACES: usize = 9;

// The lists that records have.
pub const BODY_REGIONS: usize = 0;

pub const REGION_SHELLS: usize = 1;

pub const SHELL_FACES: usize = 2;

pub const SHELL_WIRES: usize = 3;

pub const SHELL_ACORNS: usize = 4;

pub const FACE_LOOPS: usize = 5;

pub const LOOP_FINS: usize = 6;

pub const EDGE_FINS: usize = 7;

// Where a field stands among the words of a body.
pub const AT_BODY_KIND: usize = 0;

pub const AT_BODY_OFFICE: usize = 1;

pub const AT_BODY_REGIONS: usize = 2;

// Where a field stands among the words of a region.
pub const AT_REGION_BODY: usize = 0;

pub const AT_REGION_SOLID: usize = 1;

pub const AT_REGION_SHELLS: usize = 2;

// Where a field stands among the words of a shell.
pub const AT_SHELL_REGION: usize = 0;

pub const AT_SHELL_FACES: usize = 1;

pub const AT_SHELL_WIRES: usize = 514;

pub const AT_SHELL_ACORNS: usize = 771;

// Where a field stands among the words of a face.
pub const AT_FACE_FRONT: usize = 0;

pub const AT_FACE_FRONT_ID: usize = 1;

pub const AT_FACE_BACK: usize = 2;

pub const AT_FACE_BACK_ID: usize = 3;

pub const AT_FACE_SURFACE: usize = 4;

pub const AT_FACE_SURFACE_ID: usize = 5;

pub const AT_FACE_SENSE: usize = 6;

pub const AT_FACE_LOOPS: usize = 7;

// Where a field stands among the words of a loop.
pub const AT_LOOP_FACE: usize = 0;

pub const AT_LOOP_FINS: usize = 1;

// Where a field stands among the words of a fin.
pub const AT_FIN_LOOP: usize = 0;

pub const AT_FIN_EDGE: usize = 1;

pub const AT_FIN_SENSE: usize = 2;

pub const AT_FIN_PCURVE: usize = 3;

// Where a field stands among the words of an edge.
pub const AT_EDGE_START: usize = 0;

pub const AT_EDGE_START_ID: usize = 1;

pub const AT_EDGE_END: usize = 2;

pub const AT_EDGE_END_ID: usize = 3;

pub const AT_EDGE_CURVE: usize = 4;

pub const AT_EDGE_CURVE_ID: usize = 5;

pub const AT_EDGE_TOLERANCE: usize = 6;

pub const AT_EDGE_FINS: usize = 7;

// Where a field stands among the words of a vertex.
pub const AT_VERTEX_TOLERANCE: usize = 0;

// Where a field stands among the words of a carrier.
pub const AT_CARRIER_TAG: usize = 0;

// Where the version of the drawing practice stands among the words.
pub const VERSION: usize = 10;

// Where the session precision stands among the floats.
pub const PRECISION: usize = 0;

// Where a field stands among the floats of its record.
pub const FLOAT_EDGE_TOLERANCE: usize = 0;

pub const FLOAT_VERTEX_POINT: usize = 0;

pub const FLOAT_VERTEX_TOLERANCE: usize = 3;

pub const FLOAT_CARRIER_ORIGIN: usize = 0;

pub const FLOAT_CARRIER_DIRECTION: usize = 3;
