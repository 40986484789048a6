// The fins of an edge: what the writing reads of them, and the new ones.
ghost use Rattle.std.specs.Prelude.{◌≡◌, ◌<◌, length};
ghost use Rattle.memory_layout.specs.Names.{FINS};
ghost use Rattle.memory_layout.specs.Layout.{word};
ghost use Rattle.memory_layout.specs.Fit.{Lists};
ghost use Rattle.split_fins.specs.Facts.{Present};
ghost use Rattle.split_pieces.specs.Pieces.{fin_word, fin_words, fins_put};
ghost use Rattle.split_pieces.specs.Facts.{Slots};

use memory_layout::layout::words_of;
use memory_layout::names::{EDGES, FINS};
use memory_writes::put::put_words;

// Word p of a fin: its loop, or its sense.
fn fin_word(room: &[usize; 10], words: &[u32], fin: usize, p: usize) -> u32
    requires lists { Lists room.now words.now }
    requires fin_bound { (fin < word words.now FINS) × (p < 4) }
    ensures { result ≡ fin_word room.now words.now p fin }
{
    let w = words_of(room, words, FINS, fin);
    w[p]
}

// Word p of each fin.
pub fn fin_words(room: &[usize; 10], words: &[u32], fins: &[u32], p: usize, out: &mut [u32])
    requires lists { Lists room.now words.now }
    requires present { Present words.now fins.now }
    requires p_bound { (p < 4) × (length out.old ≡ length fins.now) }
    ensures { out.new ≡ fin_words room.now words.now p fins.now }
{
    for (k, fin) in fins.iter().enumerate() {
        out[k] = fin_word(room, words, *fin as usize, p);
    }
}

// A new fin for each old one, behind the last fin: its loop, the new edge, its sense, no pcurve.
pub fn put_fins(room: &[usize; 10], words: &mut [u32], owners: &[u32], senses: &[u32])
    requires slots { Slots room.now words.old (length owners.now) }
    requires senses_len { length senses.now ≡ length owners.now }
    ensures { words.new ≡ fins_put room.now owners.now senses.now words.old }
{
    let from = words[FINS] as usize;
    let edge = words[EDGES];
    for k in 0..owners.len() {
        let fin = [owners[k], edge, senses[k], 0];
        put_words(room, words, FINS, from + k, 0, &fin);
    }
}
