// What a bank does with its row of sockets, over the row alone.
ghost use Rattle.std.specs.Borrow.{sem, LendsIf, Array};
ghost use Rattle.std.specs.List.{IsItemAtMut};
ghost use Rattle.std.specs.Prelude.{◌≡◌, min, map, length, replicate, Some, None, slice_set};
ghost use Rattle.std.specs.Option.{option_map};
ghost use Rattle.serial.specs.Six.{number};
ghost use Rattle.wall.specs.Lines.{at, fit_fault_at, pull_fault_at, done_unless, after_unless, outcome_of, front as frontOf};
ghost use Rattle.lines.specs.Bank.{become_in, states, shown, sockets_of, chorus, voice};

use crate::blend::blend;
use wall::{Card, FitFault, Newcomer, Outcome, PullFault, Socket, Station};

// How many places of a row are a bank's.
pub fn in_use(length: usize) -> usize
    ensures { result ≡ min length 64 }
{
    length.min(64)
}

pub fn empty_sockets<S: Drop>(sockets: &mut [Option<S>])
    ensures { sockets.new ≡ replicate (length sockets.old) None }
{
    for socket in sockets.iter_mut() {
        *socket = None;
    }
}

// One place of a row. After a `get_mut` of std nothing is known of the elements, so it has a clause of its own.
fn place<T>(row: &mut [T], n: u32) -> Option<&mut T>
    ensures item { IsItemAtMut row.old n result }
    ensures* writes_back { sem 𝓛 (LendsIf (Array T.row 0) T.row row.entry result (slice_set row.old n) row.old) }
{
    let n = n as usize;
    if n < row.len() {
        Some(&mut row[n])
    } else {
        None
    }
}

// A station into one socket. The bank asks first whether the socket is empty, then about the serial and the address.
fn fit_one<S: Station + Drop>(socket: &mut Option<S>, newcomer: Newcomer) -> Result<(), FitFault>
    ensures value { result ≡ done_unless (fit_fault_at (shown S.Station socket.old) newcomer.serial newcomer.address) }
    ensures after { option_map S.Station.state socket.new ≡ after_unless (fit_fault_at (shown S.Station socket.old) newcomer.serial newcomer.address) (option_map S.Station.state socket.old) (Some (S.Station.fresh (number newcomer.serial) newcomer.address newcomer.defective)) }
{
    if socket.is_some() {
        return Err(FitFault::Taken);
    }
    *socket = Some(S::new(newcomer.check()?));
    Ok(())
}

pub fn fit_socket<S: Station + Drop>(
    sockets: &mut [Option<S>],
    n: u32,
    newcomer: Newcomer,
) -> Result<(), FitFault>
    ensures value { result ≡ done_unless (fit_fault_at (at (sockets_of S.Station sockets.old) n) newcomer.serial newcomer.address) }
    ensures after { states S.Station sockets.new ≡ after_unless (fit_fault_at (at (sockets_of S.Station sockets.old) n) newcomer.serial newcomer.address) (states S.Station sockets.old) (slice_set (states S.Station sockets.old) n (Some (S.Station.fresh (number newcomer.serial) newcomer.address newcomer.defective))) }
{
    let socket = place(sockets, n).ok_or(FitFault::NoSocket)?;
    fit_one(socket, newcomer)
}

fn pull_one<S: Station + Drop>(socket: &mut Option<S>) -> Result<(), PullFault>
    ensures value { result ≡ done_unless (pull_fault_at (shown S.Station socket.old)) }
    ensures after { option_map S.Station.state socket.new ≡ after_unless (pull_fault_at (shown S.Station socket.old)) (option_map S.Station.state socket.old) None }
{
    socket.take().map(drop).ok_or(PullFault::Empty)
}

pub fn pull_socket<S: Station + Drop>(sockets: &mut [Option<S>], n: u32) -> Result<(), PullFault>
    ensures value { result ≡ done_unless (pull_fault_at (at (sockets_of S.Station sockets.old) n)) }
    ensures after { states S.Station sockets.new ≡ after_unless (pull_fault_at (at (sockets_of S.Station sockets.old) n)) (states S.Station sockets.old) (slice_set (states S.Station sockets.old) n None) }
{
    let socket = place(sockets, n).ok_or(PullFault::NoSocket)?;
    pull_one(socket)
}

// Tells a station, if there is one. What comes of it: the outcome, and 23 bytes with the answer, if it gives one, and zeros.
fn tell_socket<S: Station>(socket: &mut Option<S>, telegram: &[u8]) -> (Outcome, [u8; 23])
    ensures after { option_map S.Station.state socket.new ≡ become_in S.Station.becomes telegram.now (option_map S.Station.state socket.old) }
    ensures outcome { result.0 ≡ outcome_of (voice S.Station socket.old telegram.now) }
    ensures bytes { result.1 ≡ frontOf (voice S.Station socket.old telegram.now) }
{
    let mut bytes = [0; 23];
    let Some(station) = socket else {
        return (Outcome::Silence, bytes);
    };
    let said = match station.tell(telegram, &mut bytes) {
        Ok(Some(n)) => Outcome::Answer(n),
        // 23 bytes are never too few
        Ok(None) | Err(_) => Outcome::Silence,
    };
    (said, bytes)
}

// Tells every station, and blends what they answer.
pub fn ask_sockets<S: Station>(
    sockets: &mut [Option<S>],
    telegram: &[u8],
    front: &mut [u8; 23],
) -> Outcome
    ensures after { states S.Station sockets.new ≡ map (become_in S.Station.becomes telegram.now) (states S.Station sockets.old) }
    ensures outcome { result ≡ outcome_of (chorus S.Station sockets.old telegram.now) }
    ensures bytes { front.new ≡ frontOf (chorus S.Station sockets.old telegram.now) }
{
    *front = [0; 23];
    let mut heard = Outcome::Silence;
    for socket in sockets.iter_mut() {
        let (said, bytes) = tell_socket(socket, telegram);
        heard = blend(heard, said, front, &bytes);
    }
    heard
}

// What a bank shows of a station: its serial, if it has one, as a plain number, and its addresses. A bank asks for the parts,
// and takes the serial out of its checked type itself; a station alone is asked for the whole card.
fn card_of<S: Station>(station: &S) -> Card
    ensures { result ≡ S.Station.card (S.Station.state station.now) }
{
    Card {
        serial: station.serial().map(|serial| serial.value()),
        address: station.address().value(),
        stored: station.stored_address(),
        defective: station.is_defective(),
    }
}

// What a bank shows of one of its sockets, which is live.
fn shown_socket<S: Station>(socket: &Option<S>) -> Socket
    ensures { Some result ≡ shown S.Station socket.now }
{
    Socket {
        live: true,
        speaks: S::speaks_serials(),
        station: socket.as_ref().map(card_of),
    }
}

// What a bank shows at a number, or none where there is no such socket.
pub fn socket_at<S: Station>(sockets: &[Option<S>], n: u32) -> Option<Socket>
    ensures { result ≡ at (sockets_of S.Station sockets.now) n }
{
    sockets.get(n as usize).map(shown_socket)
}
