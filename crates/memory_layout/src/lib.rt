// Inner: the lent memory, the model in words and floats (entity.rs, arena.rs, model.rs). `specs/Decode.antt` says which model
// the memory holds, `specs/Readable.antt` what refusal 9 tests; the functions say where a record lies, and ask that it does.
//
// The family memory_: the model in lent words and floats. Read memory_layout first; then refusal 9, memory_record_test and memory_readable; then what is read,
// memory_lists, memory_records, memory_reads, memory_contains, memory_lookups; then memory_writes, what a write leaves, and memory_offices, what an office sees.
#![tactic(auto)]

pub mod entries;
pub mod layout;
pub mod names;
