// A line: stations in sockets on one wire.
ghost use Rattle.std.specs.Prelude.{◌≡◌, ℕ, Bool, List};
ghost use Rattle.serial.specs.Six.{number};
ghost use Rattle.wall.specs.Wall.{Wall, Reply};
ghost use Rattle.wall.specs.Lines.{at, fit_fault, pull_fault, done_unless, after_unless, asked_result, asked_buffer};
ghost use Rattle.wall.specs.Tells.{told_state};
ghost use Rattle.wall.specs.LineLaws.{LineLaws};

use crate::card::{ShortBuffer, Socket};
use crate::faults::{FitFault, PullFault};
use crate::newcomer::Newcomer;
use crate::outcome::Outcome;

// The ghost members are the line as a small machine: its states, the wall that each state shows, the reply to a list of
// bytes and the state after it, and the states after a fit and a pull that are not refused. The laws say that the wall
// keeps the rules.
pub trait Line: Sized {
    ghost State: { Type 0 };

    ghost state: { Self → State };

    ghost wall: { State → Wall };

    ghost reply: { State → List ℕ → Reply };

    ghost next: { State → List ℕ → State };

    ghost fits: { State → ℕ → ℕ → ℕ → Bool → State };

    ghost pulls: { State → ℕ → State };

    ghost laws: { LineLaws state wall reply next fits pulls };

    // Puts a new station into an empty socket, with both addresses so. It has the serial if its socket speaks serials.
    fn fit(&mut self, socket: u32, newcomer: Newcomer) -> Result<(), FitFault>
        ensures value { result ≡ done_unless (fit_fault (wall (state self.old)) socket newcomer.serial newcomer.address) }
        ensures after { state self.new ≡ after_unless (fit_fault (wall (state self.old)) socket newcomer.serial newcomer.address) (state self.old) (fits (state self.old) socket (number newcomer.serial) newcomer.address newcomer.defective) };

    // Empties a socket that is taken.
    fn pull(&mut self, socket: u32) -> Result<(), PullFault>
        ensures value { result ≡ done_unless (pull_fault (wall (state self.old)) socket) }
        ensures after { state self.new ≡ after_unless (pull_fault (wall (state self.old)) socket) (state self.old) (pulls (state self.old) socket) };

    // Puts bytes on the line. The first 23 bytes of the buffer then hold the answer, if there is one, and zeros. A buffer of
    // under 23 bytes is refused, and nothing happens.
    fn ask(&mut self, telegram: &[u8], buffer: &mut [u8]) -> Result<Outcome, ShortBuffer>
        ensures value { result ≡ asked_result (reply (state self.old) telegram.now) buffer.old }
        ensures bytes { buffer.new ≡ asked_buffer (reply (state self.old) telegram.now) buffer.old }
        ensures after { state self.new ≡ told_state buffer.old (state self.old) (next (state self.old) telegram.now) };

    // What the line shows at a number, or none where there is no such socket.
    fn socket(&self, n: u32) -> Option<Socket>
        ensures { result ≡ at (wall (state self.now)).sockets n };

    fn tally(&self) -> u64
        ensures { result ≡ (wall (state self.now)).tally };
}
