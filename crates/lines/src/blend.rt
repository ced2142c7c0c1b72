// Two outcomes on one wire, and what the buffer then holds.
ghost use Rattle.std.specs.Prelude.{◌≡◌};
ghost use Rattle.lines.specs.Blends.{blended, kept};

use wall::Outcome;

// Two outcomes that are not silence are a clash; beside silence the other stands. The front holds the bytes of the first
// outcome, the other those of the second.
pub fn blend(first: Outcome, second: Outcome, front: &mut [u8; 23], other: &[u8; 23]) -> Outcome
    ensures outcome { result ≡ blended first second }
    ensures bytes { front.new ≡ kept first second front.old other.now }
{
    if first.is_silence() {
        *front = *other;
        second
    } else if second.is_silence() {
        first
    } else {
        *front = [0; 23];
        Outcome::Clash
    }
}
