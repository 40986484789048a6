// An entry, or the refusal's number.

#[derive(Clone, Copy)]
pub enum Entry {
    Is(u32),
    Refused(u32),
}
