// Registers that follow one another.
ghost use Rattle.std.specs.Prelude.{◌≡◌, ◌+◌, ◌<◌, ◌⊎◌, MatchOption};
ghost use Rattle.stations.specs.Spans.{among, all_among, Starts};

// The registers from the first to the last. The library's inclusive range is no Copy, and has a third field.
#[derive(Clone, Copy)]
pub struct Registers {
    pub first: u16,
    pub last: u16,
}

impl Registers {
    // So many from one on: none where they are none, or pass the last register that there can be.
    pub fn starting_at(first: u16, count: u16) -> Option<Registers>
        ensures { MatchOption result ((count ≡ 0) ⊎ (65536 < first + count)) (Starts first count) }
    {
        let last = first.checked_add(count.checked_sub(1)?)?;
        Some(Registers { first, last })
    }

    pub fn contains(self, register: u16) -> bool
        ensures { result ≡ among self register }
    {
        self.first <= register && register <= self.last
    }

    pub fn contains_all(self, others: Registers) -> bool
        ensures { result ≡ all_among self others }
    {
        self.first <= others.first && others.last <= self.last
    }
}
