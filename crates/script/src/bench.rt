// The bench of a script, which keeps one station from line to line.
ghost use Rattle.std.specs.Prelude.{◌≡◌, OnErr, OnOk, MatchResult};
ghost use Rattle.serial.specs.Six.{number};
ghost use Rattle.wall.specs.Lines.{new_fault, RefusedFor};
ghost use Rattle.wall.specs.Tells.{told_result, told_buffer, told_state};
ghost use Rattle.stations.specs.Device.{fresh};
ghost use Rattle.stations.specs.Calls.{says, becomes};
ghost use Rattle.script.specs.Stations.{kind_of, state_of, on_bench, bench_result, bench_buffer, bench_after};
ghost use Rattle.script.specs.declared.bench.Untold.TheVariants.{Short};

use stations::{Controller, Fan, Kind, OlderFan};
use wall::{FitFault, Newcomer, ShortBuffer, Station};

// The bench, with the station alone on it, if there is one.
#[derive(Default, Drop)]
pub struct Bench {
    station: Option<Alone>,
}

// A station on no line. Each kind is a type of its own, and only the script says which one it is. A `dyn` is no choice, since a
// function may not make one and hand it on.
#[derive(Drop)]
enum Alone {
    Fan(Fan),
    OlderFan(OlderFan),
    Controller(Controller),
}

// The station that is to be put on the bench.
#[derive(Clone, Copy)]
pub struct Fitting {
    pub kind: Kind,
    pub newcomer: Newcomer,
}

// Why nothing could be told.
#[derive(Clone, Copy)]
pub enum Untold {
    NoStation,
    Short(ShortBuffer),
}

impl From<ShortBuffer> for Untold {
    ghost from_gives = { λ short untold. untold ≡ Short short };

    fn from(short: ShortBuffer) -> Untold {
        Untold::Short(short)
    }
}

impl Bench {
    // Puts a new station in place of the one before, which stays where this is refused.
    pub fn put_station(&mut self, fitting: Fitting) -> Result<(), FitFault>
        ensures kept { OnErr result (self.new ≡ self.old) }
        ensures fault { MatchResult result (λ _. new_fault fitting.newcomer.serial fitting.newcomer.address ≡ None) (RefusedFor fitting.newcomer.serial fitting.newcomer.address) }
        ensures put { OnOk result (on_bench self.new ≡ Some (fitting.kind, fresh (number fitting.newcomer.serial) fitting.newcomer.address fitting.newcomer.defective)) }
    {
        self.station = Some(Alone::new(fitting)?);
        Ok(())
    }

    // How many bytes of the buffer the station answers, or none where it is silent.
    pub fn tell(&mut self, telegram: &[u8], buffer: &mut [u8]) -> Result<Option<usize>, Untold>
        ensures value { result ≡ bench_result (on_bench self.old) telegram.now buffer.old }
        ensures bytes { buffer.new ≡ bench_buffer (on_bench self.old) telegram.now buffer.old }
        ensures after { on_bench self.new ≡ bench_after (on_bench self.old) telegram.now buffer.old }
    {
        let station = self.station.as_mut().ok_or(Untold::NoStation)?;
        Ok(station.tell(telegram, buffer)?)
    }
}

impl Alone {
    fn new(fitting: Fitting) -> Result<Alone, FitFault>
        ensures { MatchResult result (λ s. (new_fault fitting.newcomer.serial fitting.newcomer.address ≡ None) × (kind_of s ≡ fitting.kind) × (state_of s ≡ fresh (number fitting.newcomer.serial) fitting.newcomer.address fitting.newcomer.defective)) (RefusedFor fitting.newcomer.serial fitting.newcomer.address) }
    {
        let admitted = fitting.newcomer.check()?;
        Ok(match fitting.kind {
            Kind::Fan => Alone::Fan(Fan::new(admitted)),
            Kind::OlderFan => Alone::OlderFan(OlderFan::new(admitted)),
            Kind::Controller => Alone::Controller(Controller::new(admitted)),
        })
    }

    fn tell(&mut self, telegram: &[u8], buffer: &mut [u8]) -> Result<Option<usize>, ShortBuffer>
        ensures value { result ≡ told_result (says (kind_of self.old) (state_of self.old) telegram.now) buffer.old }
        ensures bytes { buffer.new ≡ told_buffer (says (kind_of self.old) (state_of self.old) telegram.now) buffer.old }
        ensures kind { kind_of self.new ≡ kind_of self.old }
        ensures after { state_of self.new ≡ told_state buffer.old (state_of self.old) (becomes (kind_of self.old) (state_of self.old) telegram.now) }
    {
        match self {
            Alone::Fan(fan) => fan.tell(telegram, buffer),
            Alone::OlderFan(fan) => fan.tell(telegram, buffer),
            Alone::Controller(controller) => controller.tell(telegram, buffer),
        }
    }
}
