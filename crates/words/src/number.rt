// A number that a word names.
ghost use Rattle.std.specs.Prelude.{◌≡◌, true, ◌-◌, ◌≤◌};
ghost use Rattle.words.specs.Number.{is_digit, number_in};

fn is_digit(byte: u8) -> bool
    ensures { result ≡ is_digit byte }
{
    (b'0' <= byte) & (byte <= b'9')
}

fn digit_of(byte: u8) -> u32
    requires { is_digit byte ≡ true }
    ensures { (result ≡ byte - 48) × (result ≤ 9) }
{
    (byte - b'0') as u32
}

// The number that 1 to 9 decimal digits name, and 0 of anything else, as `number_in` promises of every word: no Option,
// and no `parse`, which takes `+5` and a tenth digit too. Each caller refuses the number 0.
#[tactic(auto, using(crate::proofs::NumberLaws::reading))]
pub fn number_in(word: &[u8]) -> u32
    ensures { result ≡ number_in word.now }
{
    if 9 < word.len() {
        return 0;
    }
    let mut n = 0;
    for byte in word {
        if !is_digit(*byte) {
            return 0;
        }
        n = 10 * n + digit_of(*byte);
    }
    n
}
