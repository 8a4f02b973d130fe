// The text by which a day is judged, handed to the rules as one.
ghost use Rattle.std.specs.Prelude.{◌≡◌};
ghost use Rattle.rules.specs.Codes.{is_rulebook};

// The rulebook is a number: a header may name any, and the rules promise an answer for each.
#[derive(Debug, Clone, Copy, PartialEq, Eq, Hash)]
pub struct Text {
    pub rulebook: u8,
}

// Whether there is such a rulebook. It comes in 64 bits: 257 is none.
pub fn is_rulebook(rulebook: u64) -> bool
    ensures { result ≡ is_rulebook rulebook }
{
    (1 <= rulebook) & (rulebook <= 2)
}
