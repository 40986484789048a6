// One record more.
ghost use Rattle.std.specs.Prelude.{◌≡◌, ◌≤◌, length};
ghost use Rattle.memory_layout.specs.Layout.{word_strides, word};
ghost use Rattle.stl_rows.specs.Rows.{appended_words};
ghost use Rattle.stl_rows.specs.Facts.{Space};

use memory_writes::put::put_new;

// In table k, with the words of row at its front.
pub fn append(room: &[usize; 10], words: &mut [u32], k: usize, row: &[u32])
    requires space { Space room.now words.old k 1 }
    requires row_len_bound { length row.now ≤ word word_strides k }
    ensures { words.new ≡ appended_words room.now k row.now words.old }
{
    let used = words[k];
    put_new(room, words, k, used as usize, row);
    words[k] = used + 1;
}
