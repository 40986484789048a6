// Inner: a walk of a body that lists what a mending changes (W-208): the parents that its lists give, and the fins that their edges do not list. Ask it where `mend_tests` refuses nothing.
#![tactic(auto)]

ghost use Rattle.std.specs.Prelude.{◌≡◌, true};
ghost use Rattle.meaning.specs.Lists.{all, joined};
ghost use Rattle.meaning.specs.Walks.{readable_fin};
ghost use Rattle.meaning_mends.specs.Mends.{loop_meetings, face_meetings, shell_meetings, region_meetings, meetings, loop_there, face_there, shell_there, region_there, body_there};
ghost use Rattle.mend_meetings.specs.Machine.{Walks};
ghost use Rattle.mend_meetings.specs.Facts.{Ready, model_of};
ghost use Rattle.mend_meetings.specs.Laws.{fin_meeting};

use memory_layout::names::{
    BODY_REGIONS, FACE_LOOPS, FINS, LOOP_FINS, LOOPS, REGION_SHELLS, REGIONS, SHELL_FACES, SHELLS,
};
use memory_lists::list;
use mend_meetings::meet;

// The fins that the loop l lists.
fn fins(
    room: &[usize; 10],
    words: &[u32],
    nums: &mut [u32],
    marks: &mut [u8],
    count: usize,
    l: u32,
    ids: &[u32],
) -> usize
    requires ready { Ready room.now words.now marks.old }
    requires ids_value { all (readable_fin (model_of room.now words.now)) ids.now ≡ true }
    ensures { Walks (model_of room.now words.now) (joined (fin_meeting l) ids.now) nums.old marks.old count nums.new marks.new result }
{
    let mut n = count;
    for id in ids {
        n = meet(room, words, nums, marks, n, FINS, l, *id);
    }
    n
}

// The loop l, which the face f lists.
fn loop_(
    room: &[usize; 10],
    words: &[u32],
    nums: &mut [u32],
    marks: &mut [u8],
    count: usize,
    f: u32,
    l: u32,
) -> usize
    requires ready { Ready room.now words.now marks.old }
    requires l_value { loop_there (model_of room.now words.now) l ≡ true }
    ensures { Walks (model_of room.now words.now) (loop_meetings (model_of room.now words.now) f l) nums.old marks.old count nums.new marks.new result }
{
    let n = meet(room, words, nums, marks, count, LOOPS, f, l);
    let ids = list(room, words, LOOP_FINS, l as usize);
    fins(room, words, nums, marks, n, l, ids)
}

// The loops that the face f lists.
fn loops(
    room: &[usize; 10],
    words: &[u32],
    nums: &mut [u32],
    marks: &mut [u8],
    count: usize,
    f: u32,
    ids: &[u32],
) -> usize
    requires ready { Ready room.now words.now marks.old }
    requires ids_value { all (loop_there (model_of room.now words.now)) ids.now ≡ true }
    ensures { Walks (model_of room.now words.now) (joined (loop_meetings (model_of room.now words.now) f) ids.now) nums.old marks.old count nums.new marks.new result }
{
    let mut n = count;
    for id in ids {
        n = loop_(room, words, nums, marks, n, f, *id);
    }
    n
}

// The face f, which names no parent that is mended.
fn face(
    room: &[usize; 10],
    words: &[u32],
    nums: &mut [u32],
    marks: &mut [u8],
    count: usize,
    f: u32,
) -> usize
    requires ready { Ready room.now words.now marks.old }
    requires f_value { face_there (model_of room.now words.now) f ≡ true }
    ensures { Walks (model_of room.now words.now) (face_meetings (model_of room.now words.now) f) nums.old marks.old count nums.new marks.new result }
{
    let ids = list(room, words, FACE_LOOPS, f as usize);
    loops(room, words, nums, marks, count, f, ids)
}

// The faces that a shell lists.
fn faces(
    room: &[usize; 10],
    words: &[u32],
    nums: &mut [u32],
    marks: &mut [u8],
    count: usize,
    ids: &[u32],
) -> usize
    requires ready { Ready room.now words.now marks.old }
    requires ids_value { all (face_there (model_of room.now words.now)) ids.now ≡ true }
    ensures { Walks (model_of room.now words.now) (joined (face_meetings (model_of room.now words.now)) ids.now) nums.old marks.old count nums.new marks.new result }
{
    let mut n = count;
    for id in ids {
        n = face(room, words, nums, marks, n, *id);
    }
    n
}

// The shell s, which the region r lists.
fn shell(
    room: &[usize; 10],
    words: &[u32],
    nums: &mut [u32],
    marks: &mut [u8],
    count: usize,
    r: u32,
    s: u32,
) -> usize
    requires ready { Ready room.now words.now marks.old }
    requires s_value { shell_there (model_of room.now words.now) s ≡ true }
    ensures { Walks (model_of room.now words.now) (shell_meetings (model_of room.now words.now) r s) nums.old marks.old count nums.new marks.new result }
{
    let n = meet(room, words, nums, marks, count, SHELLS, r, s);
    let ids = list(room, words, SHELL_FACES, s as usize);
    faces(room, words, nums, marks, n, ids)
}

// The shells that the region r lists.
fn shells(
    room: &[usize; 10],
    words: &[u32],
    nums: &mut [u32],
    marks: &mut [u8],
    count: usize,
    r: u32,
    ids: &[u32],
) -> usize
    requires ready { Ready room.now words.now marks.old }
    requires ids_value { all (shell_there (model_of room.now words.now)) ids.now ≡ true }
    ensures { Walks (model_of room.now words.now) (joined (shell_meetings (model_of room.now words.now) r) ids.now) nums.old marks.old count nums.new marks.new result }
{
    let mut n = count;
    for id in ids {
        n = shell(room, words, nums, marks, n, r, *id);
    }
    n
}

// The region r, which the body b lists.
fn region(
    room: &[usize; 10],
    words: &[u32],
    nums: &mut [u32],
    marks: &mut [u8],
    count: usize,
    b: u32,
    r: u32,
) -> usize
    requires ready { Ready room.now words.now marks.old }
    requires r_value { region_there (model_of room.now words.now) r ≡ true }
    ensures { Walks (model_of room.now words.now) (region_meetings (model_of room.now words.now) b r) nums.old marks.old count nums.new marks.new result }
{
    let n = meet(room, words, nums, marks, count, REGIONS, b, r);
    let ids = list(room, words, REGION_SHELLS, r as usize);
    shells(room, words, nums, marks, n, r, ids)
}

// The regions that the body b lists.
fn regions(
    room: &[usize; 10],
    words: &[u32],
    nums: &mut [u32],
    marks: &mut [u8],
    count: usize,
    b: u32,
    ids: &[u32],
) -> usize
    requires ready { Ready room.now words.now marks.old }
    requires ids_value { all (region_there (model_of room.now words.now)) ids.now ≡ true }
    ensures { Walks (model_of room.now words.now) (joined (region_meetings (model_of room.now words.now) b) ids.now) nums.old marks.old count nums.new marks.new result }
{
    let mut n = count;
    for id in ids {
        n = region(room, words, nums, marks, n, b, *id);
    }
    n
}

// What a mending of the body changes, put into the list as far as it has entries: how many changes there are, or FULL where an edge has no slot.
pub fn body_walk(
    room: &[usize; 10],
    words: &[u32],
    nums: &mut [u32],
    marks: &mut [u8],
    body: usize,
) -> usize
    requires ready { Ready room.now words.now marks.old }
    requires body_value { body_there (model_of room.now words.now) body ≡ true }
    ensures { Walks (model_of room.now words.now) (meetings (model_of room.now words.now) body) nums.old marks.old 0 nums.new marks.new result }
{
    let b = body as u32;
    let ids = list(room, words, BODY_REGIONS, body);
    regions(room, words, nums, marks, 0, b, ids)
}
