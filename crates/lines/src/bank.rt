// A bank: a row of live sockets for stations of one kind, in memory that is lent to it.
ghost use Rattle.std.specs.Prelude.{◌≡◌, min, length, replicate, None};
ghost use Rattle.serial.specs.Six.{number};
ghost use Rattle.wall.specs.Lines.{fit_fault, pull_fault, done_unless, after_unless, asked_result, asked_buffer};
ghost use Rattle.wall.specs.Tells.{told_state};
ghost use Rattle.lines.specs.Bank.{BankState, bank_wall, bank_reply, bank_next, bank_fits, bank_pulls};
ghost use Rattle.lines.specs.Banks.{bank_state, wall_of, SameLoan, bank_laws};

use crate::sockets::{ask_sockets, empty_sockets, fit_socket, in_use, pull_socket, socket_at};
use wall::{FitFault, Line, Newcomer, Outcome, PullFault, ShortBuffer, Socket, Station, Tally};

// Of a longer row the first 64 places are the bank's, and the rest is not touched. Each call cuts them off by itself: of a
// method that handed out a part of a slice it would not be proved what the row then is.
#[derive(Drop)]
pub struct Bank<'a, S> {
    sockets: &'a mut [Option<S>],
    tally: Tally,
}

impl<'a, S: Station + Drop> Bank<'a, S> {
    // The sockets of a new bank are empty.
    pub fn new(sockets: &'a mut [Option<S>]) -> Bank<'a, S>
        ensures state { bank_state S.Station result ≡ record { sockets = replicate (min (length sockets.entry.now) 64) None; tally = 0 } }
        ensures loan { SameLoan sockets.entry result.sockets }
    {
        let n = in_use(sockets.len());
        empty_sockets(&mut sockets[0..n]);
        Bank {
            sockets,
            tally: Tally::new(),
        }
    }
}

impl<'a, S: Station + Drop> Line for Bank<'a, S> {
    ghost State = { BankState S.Station.State };

    ghost state = { bank_state S.Station };

    ghost wall = { bank_wall S.Station.speaks S.Station.card };

    ghost reply = { bank_reply S.Station.says };

    ghost next = { bank_next S.Station.becomes };

    ghost fits = { bank_fits S.Station.fresh };

    ghost pulls = { bank_pulls };

    ghost laws = { bank_laws S.Station };

    fn fit(&mut self, socket: u32, newcomer: Newcomer) -> Result<(), FitFault>
        ensures value { result ≡ done_unless (fit_fault (wall_of S.Station self.old) socket newcomer.serial newcomer.address) }
        ensures after { bank_state S.Station self.new ≡ after_unless (fit_fault (wall_of S.Station self.old) socket newcomer.serial newcomer.address) (bank_state S.Station self.old) (bank_fits S.Station.fresh (bank_state S.Station self.old) socket (number newcomer.serial) newcomer.address newcomer.defective) }
        ensures loan { SameLoan self.old.sockets self.new.sockets }
    {
        let n = in_use(self.sockets.len());
        fit_socket(&mut self.sockets[0..n], socket, newcomer)
    }

    fn pull(&mut self, socket: u32) -> Result<(), PullFault>
        ensures value { result ≡ done_unless (pull_fault (wall_of S.Station self.old) socket) }
        ensures after { bank_state S.Station self.new ≡ after_unless (pull_fault (wall_of S.Station self.old) socket) (bank_state S.Station self.old) (bank_pulls (bank_state S.Station self.old) socket) }
        ensures loan { SameLoan self.old.sockets self.new.sockets }
    {
        let n = in_use(self.sockets.len());
        pull_socket(&mut self.sockets[0..n], socket)
    }

    fn ask(&mut self, telegram: &[u8], buffer: &mut [u8]) -> Result<Outcome, ShortBuffer>
        ensures value { result ≡ asked_result (bank_reply S.Station.says (bank_state S.Station self.old) telegram.now) buffer.old }
        ensures bytes { buffer.new ≡ asked_buffer (bank_reply S.Station.says (bank_state S.Station self.old) telegram.now) buffer.old }
        ensures after { bank_state S.Station self.new ≡ told_state buffer.old (bank_state S.Station self.old) (bank_next S.Station.becomes (bank_state S.Station self.old) telegram.now) }
        ensures loan { SameLoan self.old.sockets self.new.sockets }
    {
        let front = buffer.first_chunk_mut::<23>().ok_or(ShortBuffer)?;
        self.tally.count();
        let n = in_use(self.sockets.len());
        Ok(ask_sockets(&mut self.sockets[0..n], telegram, front))
    }

    fn socket(&self, n: u32) -> Option<Socket> {
        let used = in_use(self.sockets.len());
        socket_at(&self.sockets[0..used], n)
    }

    fn tally(&self) -> u64 {
        self.tally.value()
    }
}
