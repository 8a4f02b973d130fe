// How many kinds of offence a rulebook has, and by which numbers they go: numbers, as `enough_of`, `sanction_of` and
// `clause_of` promise an answer for every number, and as `first_kind` of specs/Kinds and a finding's byte are numbers.
ghost use Rattle.std.specs.Prelude.{◌≡◌};
ghost use Rattle.rules.specs.Kinds.{kinds_of, kinds_in, first_kind};

// The kinds that one book keeps: one of them by itself, 5; or 1 to 3; or 1 to 4.
#[derive(Debug, Clone, Copy, PartialEq, Eq, Hash)]
pub enum Kinds {
    One,
    Three,
    Four,
}

// The most kinds that a rulebook has: buffers of this size serve every rulebook.
pub const MOST_KINDS: usize = 3;

// The kinds of a rulebook. It comes in 64 bits, as it is passed in.
#[tactic(auto, unfolding(crate::specs::Kinds::kinds_of))]
pub fn kinds_of(rulebook: u64) -> Kinds
    ensures { result ≡ kinds_of rulebook }
{
    Kinds::Three
}

// How many they are.
#[tactic(auto, unfolding(crate::specs::Kinds::kinds_in))]
pub fn kinds_in(kinds: Kinds) -> usize
    ensures { result ≡ kinds_in kinds }
{
    match kinds {
        Kinds::One => 1,
        Kinds::Three => 3,
        Kinds::Four => 4,
    }
}

// The number of the first.
#[tactic(auto, unfolding(crate::specs::Kinds::first_kind))]
pub fn first_kind(kinds: Kinds) -> u8
    ensures { result ≡ first_kind kinds }
{
    match kinds {
        Kinds::One => 5,
        Kinds::Three => 1,
        Kinds::Four => 1,
    }
}
