// The cause phrase that belongs to a refusal number.
ghost use Rattle.std.specs.Prelude.{◌≤◌, ◌≡◌, length};
ghost use Rattle.report.specs.Phrases.{longest_phrase, phrase};

// The phrase of a number, an empty one where it has none, as `phrase` has it. The number is that of the
// table of causes, as in a refusal.
#[tactic(auto, unfolding(crate::specs::Phrases::phrase), using(crate::specs::Phrases::Laws::phrase_none))]
pub fn phrase_of(number: u8) -> &'static [u8]
    ensures value { result.now ≡ phrase number }
    ensures short { length result.now ≤ longest_phrase }
{
    match number {
        1 => b"sheet cut or too long",
        2 => b"record kind",
        3 => b"machine shape",
        4 => b"next state",
        5 => b"word",
        6 => b"word does not separate",
        7 => b"sequence",
        8 => b"not connected",
        9 => b"room",
        10 => b"answers",
        11 => b"not certified",
        _ => b"",
    }
}
