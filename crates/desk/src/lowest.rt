// A day's lowest places: a byte for each ladder of its rulebook, in room that serves every rulebook, as there is no
// heap. An ArrayVec would be made full and cut, and put one more library under the desk for this one buffer.
ghost use Rattle.std.specs.Prelude.{◌≡◌, ◌≤◌, ℕ, List, ◌*◌, take};
ghost use Rattle.rules.specs.Kinds.{most_kinds};

use places::MOST_LADDERS;
use std::marker::Model;

#[derive(Drop)]
pub(crate) struct LowestPlaces {
    pub(crate) all: [u8; MOST_LADDERS],
    pub(crate) used: usize,
}

impl Model for LowestPlaces {
    ghost Value = { List ℕ };

    ghost view = { λ p. take p.used p.all };

    ghost invariant = { λ p. p.used ≤ 2048 * most_kinds };
}

impl LowestPlaces {
    #[tactic(auto, unfolding(rules::specs::Kinds::most_kinds))]
    pub(crate) fn as_bytes(&self) -> &[u8]
        ensures { result.now ≡ self.now }
    {
        &self.all[..self.used]
    }
}
