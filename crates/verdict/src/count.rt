// How many findings a day has.
ghost use Rattle.std.specs.Prelude.{◌≡◌};
ghost use Rattle.verdict.specs.Verdict.{found_in};

use places::ladders_in;
use posting::raise::place_in;
use rules::kinds::Kinds;

// How many ladders have an offence: `places` has each ladder's lowest place, and one from `contracts` on is none. All
// added up with no branch: `filter` has one at each ladder, which goes by its place.
pub fn count_found(kinds: Kinds, places: &[u8], contracts: usize) -> usize
    ensures { result ≡ found_in kinds places.now contracts }
{
    let mut found = 0;
    for l in 0..ladders_in(kinds) {
        found += usize::from(place_in(places, l) < contracts);
    }
    found
}
