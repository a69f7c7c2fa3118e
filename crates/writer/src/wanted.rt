// Which records a sheet is to have behind the machine's.

// Record 2; records 2 and 3; records 2, 3 and 4. No `Option` of each part in its place: a sheet has no
// answers without a sequence, and what is lent besides has no influence.
#[derive(Clone, Copy)]
pub enum Wanted {
    Word,
    Sequence,
    Answers,
}
