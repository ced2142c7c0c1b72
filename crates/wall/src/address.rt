// An address that can be in force: 1 to 247. Address 0 is for all stations at once.
ghost use Rattle.std.specs.Prelude.{◌≡◌, true, false, MatchOption};
ghost use Rattle.telegram.specs.Answers.{is_address};

#[derive(Clone, Copy, PartialEq, Eq, Debug)]
pub struct Address {
    value: u8,
    ghost ok: { is_address value ≡ true },
}

impl Address {
    pub fn new(value: u8) -> Option<Address>
        ensures { MatchOption result (is_address value ≡ false) (λ a. a.value ≡ value) }
    {
        if matches!(value, 1..=247) {
            Some(Address { value })
        } else {
            None
        }
    }

    pub fn value(self) -> u8
        ensures same { result ≡ self.value }
        ensures range { is_address result ≡ true }
    {
        self.value
    }
}
