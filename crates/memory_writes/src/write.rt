// Writing into a part of the lent memory.
ghost use Rattle.std.specs.Prelude.{◌≡◌, ◌+◌, ◌≤◌, length, replicate};
ghost use Rattle.memory_writes.specs.Put.{over};

// Every word 0.
pub fn clear(w: &mut [u32])
    ensures { w.new ≡ replicate (length w.old) 0 }
{
    w.fill(0);
}

// The words of a, from a place on. A loop, as below: `copy_from_slice` calls `memmove`, which the header for C does not ask for.
pub fn write_words(w: &mut [u32], at: usize, a: &[u32])
    requires { at + length a.now ≤ length w.old }
    ensures { w.new ≡ over at a.now w.old }
{
    for (j, word) in a.iter().enumerate() {
        w[at + j] = *word;
    }
}

// The floats of a.
pub fn write_reals(x: &mut [f64], a: &[f64])
    requires { length a.now ≡ length x.old }
    ensures { x.new ≡ a.now }
{
    for (j, real) in a.iter().enumerate() {
        x[j] = *real;
    }
}

// The words of a, and behind them zeros.
pub fn write_new(w: &mut [u32], a: &[u32])
    requires { length a.now ≤ length w.old }
    ensures { w.new ≡ over 0 a.now (replicate (length w.old) 0) }
{
    clear(w);
    write_words(w, 0, a);
}
