// What depends on the format of a sheet: the kinds of its records, the most bytes that it has, and
// where the table starts in the machine's payload.
ghost use Rattle.std.specs.Prelude.{◌≡◌};
ghost use Rattle.sheet.specs.Format.{standard, role_of, new_kind};

// The bytes of the longest sheet.
pub const LONGEST: usize = 40_912;

// How many bytes of the machine's payload come before its table.
pub const TABLE: usize = 2;

// The numbers of the kinds.
const MACHINE_KIND: u16 = 1;

const WORD_KIND: u16 = 2;

const SEQUENCE_KIND: u16 = 3;

const ANSWERS_KIND: u16 = 4;

// What a record holds, by its kind; the known ones in the order in which their records stand. No
// `Option`: to the definitions (`role_of`, `rank_of`) unknown is a role.
#[derive(Clone, Copy, Debug, PartialEq, Eq)]
pub enum Role {
    Unknown,
    Machine,
    Word,
    Sequence,
    Answers,
}

// Decodes a kind's number.
impl From<u16> for Role {
    ghost from_gives = { λ kind role. role ≡ role_of standard kind };

    fn from(kind: u16) -> Role {
        match kind {
            MACHINE_KIND => Role::Machine,
            WORD_KIND => Role::Word,
            SEQUENCE_KIND => Role::Sequence,
            ANSWERS_KIND => Role::Answers,
            _ => Role::Unknown,
        }
    }
}

// The kind of a record of a role that is written, 0 where that is no role.
pub fn new_kind(role: Role) -> u16
    ensures { result ≡ new_kind standard role }
{
    match role {
        Role::Machine => MACHINE_KIND,
        Role::Word => WORD_KIND,
        Role::Sequence => SEQUENCE_KIND,
        Role::Answers => ANSWERS_KIND,
        Role::Unknown => 0,
    }
}
