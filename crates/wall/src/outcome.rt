// What comes back of a telegram that was put on a line.
ghost use Rattle.std.specs.Prelude.{◌≡◌};
ghost use Rattle.wall.specs.Lines.{is_silence};

// An answer tells its length; its bytes stand in the buffer, whose memory the caller lends. A clash is the broken telegram of two stations or more that
// answer at once, and not silence.
#[derive(Clone, Copy, PartialEq, Eq, Debug)]
pub enum Outcome {
    Silence,
    Answer(usize),
    Clash,
}

impl Outcome {
    pub fn is_silence(self) -> bool
        ensures { result ≡ is_silence self }
    {
        matches!(self, Outcome::Silence)
    }
}
