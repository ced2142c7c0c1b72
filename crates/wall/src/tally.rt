// How many telegrams were put on a line.
ghost use Rattle.std.specs.Prelude.{◌≡◌};
ghost use Rattle.wall.specs.Counts.{one_more};

#[derive(Clone, Copy)]
pub struct Tally {
    value: u64,
}

impl Tally {
    pub fn new() -> Tally
        ensures { result.value ≡ 0 }
    {
        Tally { value: 0 }
    }

    // One telegram more; after the greatest number comes 0.
    pub fn count(&mut self)
        ensures { self.new.value ≡ one_more self.old.value }
    {
        self.value = self.value.wrapping_add(1);
    }

    pub fn value(self) -> u64
        ensures { result ≡ self.value }
    {
        self.value
    }
}
