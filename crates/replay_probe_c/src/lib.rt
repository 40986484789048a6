// For callers: `brunskerl_probe` of replay_probe, exported for C. A static library is no library for other crates, and replay_numbers uses replay_probe.
#![tactic(auto)]

#[unsafe(no_mangle)]
pub extern "C" fn brunskerl_probe(op: u32, x: &[f64; 12], out: &mut [f64; 6]) -> u32 {
    replay_probe::brunskerl_probe(op, x, out)
}
