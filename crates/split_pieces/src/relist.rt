// The lists that name the old fins and the old edge.
ghost use Rattle.std.specs.Prelude.{◌≡◌, ◌<◌, true, false, [], ◌∷◌, length};
ghost use Rattle.memory_layout.specs.Names.{SHELLS, LOOPS, FINS, EDGES, AT_SHELL_WIRES, AT_LOOP_FINS};
ghost use Rattle.memory_layout.specs.Layout.{word};
ghost use Rattle.split_lists.specs.BesideFacts.{Olds};
ghost use Rattle.split_lists.specs.Facts.{Roomy};
ghost use Rattle.split_pieces.specs.Pieces.{loops_put, wires_put};
ghost use Rattle.split_pieces.specs.Facts.{Slots};

use memory_layout::names::{AT_LOOP_FINS, AT_SHELL_WIRES, EDGES, FINS, LOOPS, SHELLS};
use split_lists::passes::double_lists;

// Every loop.
pub fn put_loops(
    room: &[usize; 10],
    words: &mut [u32],
    fins: &[u32],
    owners: &[u32],
    senses: &[u32],
)
    requires slots { Slots room.now words.old 0 }
    requires olds { Olds fins.now owners.now senses.now (word words.old FINS) }
    requires roomy { Roomy room.now words.old LOOPS AT_LOOP_FINS (word words.old LOOPS) fins.now owners.now senses.now true (word words.old FINS) }
    ensures { words.new ≡ loops_put room.now fins.now owners.now senses.now words.old }
{
    let n = words[LOOPS] as usize;
    let first = words[FINS];
    double_lists(
        room,
        words,
        LOOPS,
        AT_LOOP_FINS,
        n,
        fins,
        owners,
        senses,
        true,
        first,
    );
}

// Every shell.
pub fn put_wires(room: &[usize; 10], words: &mut [u32], edge: usize)
    requires slots { Slots room.now words.old 0 }
    requires edge_bound { edge < word words.old EDGES }
    requires roomy { Roomy room.now words.old SHELLS AT_SHELL_WIRES (word words.old SHELLS) (edge ∷ []) (0 ∷ []) (0 ∷ []) false (word words.old EDGES) }
    ensures { words.new ≡ wires_put room.now edge words.old }
{
    let n = words[SHELLS] as usize;
    let first = words[EDGES];
    let old = [edge as u32];
    let mark = [0u32];
    double_lists(
        room,
        words,
        SHELLS,
        AT_SHELL_WIRES,
        n,
        &old,
        &mark,
        &mark,
        false,
        first,
    );
}
