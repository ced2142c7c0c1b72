// A feeder: a line behind a switch.
ghost use Rattle.std.specs.Prelude.{◌≡◌, true};
ghost use Rattle.lines.specs.Feeder.{FeederState, gate, feeder_wall, feeder_reply, feeder_next, feeder_fits, feeder_pulls};
ghost use Rattle.lines.specs.Feeders.{feeder_state, feeder_laws};

use wall::{FitFault, Line, Newcomer, Outcome, PullFault, ShortBuffer, Socket, Tally};

// Switched off, none of its sockets is live, and ask passes nothing on.
#[derive(Drop)]
pub struct Feeder<L> {
    line: L,
    on: bool,
    tally: Tally,
}

impl<L: Line> Feeder<L> {
    // A new feeder is on.
    pub fn new(line: L) -> Feeder<L>
        ensures state { feeder_state L.Line result ≡ record { line = L.Line.state line; on = true; tally = 0 } }
        ensures line { result.line ≡ line }
    {
        Feeder {
            line,
            on: true,
            tally: Tally::new(),
        }
    }

    pub fn switch(&mut self, on: bool)
        ensures state { feeder_state L.Line self.new ≡ record { line = L.Line.state self.old.line; on = on; tally = self.old.tally.value } }
        ensures line { self.new.line ≡ self.old.line }
    {
        self.on = on;
    }

    pub fn is_on(&self) -> bool
        ensures { result ≡ self.now.on }
    {
        self.on
    }

    // The line again, as it is now.
    pub fn into_line(self) -> L
        ensures { result ≡ self.line }
    {
        self.line
    }
}

// A socket of the line as the feeder shows it.
fn behind(socket: Option<Socket>, on: bool) -> Option<Socket>
    ensures { result ≡ gate on socket }
{
    socket.map(|s| Socket {
        live: s.live && on,
        ..s
    })
}

impl<L: Line> Line for Feeder<L> {
    ghost State = { FeederState L.Line.State };

    ghost state = { feeder_state L.Line };

    ghost wall = { feeder_wall L.Line.wall };

    ghost reply = { feeder_reply L.Line.reply };

    ghost next = { feeder_next L.Line.next };

    ghost fits = { feeder_fits L.Line.fits };

    ghost pulls = { feeder_pulls L.Line.pulls };

    ghost laws = { feeder_laws L.Line };

    fn fit(&mut self, socket: u32, newcomer: Newcomer) -> Result<(), FitFault> {
        self.line.fit(socket, newcomer)
    }

    fn pull(&mut self, socket: u32) -> Result<(), PullFault> {
        self.line.pull(socket)
    }

    fn ask(&mut self, telegram: &[u8], buffer: &mut [u8]) -> Result<Outcome, ShortBuffer> {
        let front = buffer.first_chunk_mut::<23>().ok_or(ShortBuffer)?;
        self.tally.count();
        if self.on {
            self.line.ask(telegram, front)
        } else {
            *front = [0; 23];
            Ok(Outcome::Silence)
        }
    }

    fn socket(&self, n: u32) -> Option<Socket> {
        behind(self.line.socket(n), self.on)
    }

    fn tally(&self) -> u64 {
        self.tally.value()
    }
}
