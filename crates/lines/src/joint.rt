// A joint: two lines as one.
ghost use Rattle.std.specs.Prelude.{◌≡◌, ◌/◌, cond, replicate, Ok};
ghost use Rattle.wall.specs.Lines.{outcome_of, asked_buffer};
ghost use Rattle.lines.specs.Blends.{blended, kept};
ghost use Rattle.lines.specs.Joint.{JointState, even, joint_wall, joint_reply, joint_next, joint_fits, joint_pulls};
ghost use Rattle.lines.specs.declared.joint.Side.TheVariants.{Left, Right};
ghost use Rattle.lines.specs.Joints.{joint_state, Sides, joint_laws};

use crate::blend::blend;
use wall::{FitFault, Line, Newcomer, Outcome, PullFault, ShortBuffer, Socket, Tally};

// Socket 2n is the left line's n, socket 2n + 1 the right line's n. Where one line is longer there are gaps.
#[derive(Drop)]
pub struct Joint<P, Q> {
    left: P,
    right: Q,
    tally: Tally,
}

impl<P: Line, Q: Line> Joint<P, Q> {
    pub fn new(left: P, right: Q) -> Joint<P, Q>
        ensures state { joint_state P.Line Q.Line result ≡ record { left = P.Line.state left; right = Q.Line.state right; tally = 0 } }
        ensures numbers { Sides P.Line Q.Line left right result }
        ensures lines { (result.left ≡ left) × (result.right ≡ right) }
    {
        Joint {
            left,
            right,
            tally: Tally::new(),
        }
    }

    // The two lines again, as they are now.
    pub fn into_lines(self) -> (P, Q)
        ensures { result ≡ (self.left, self.right) }
    {
        (self.left, self.right)
    }
}

// Whose a socket is, with its number there.
#[derive(Clone, Copy)]
enum Side {
    Left(u32),
    Right(u32),
}

// Even numbers are the left line's.
fn side_of(socket: u32) -> Side
    ensures { result ≡ cond (even socket) (Left (socket / 2)) (Right (socket / 2)) }
{
    if socket % 2 == 0 {
        Side::Left(socket / 2)
    } else {
        Side::Right(socket / 2)
    }
}

// Asks a line, and blends its outcome with what was heard before, whose bytes are in the front.
fn ask_beside<L: Line>(
    line: &mut L,
    telegram: &[u8],
    heard: Outcome,
    front: &mut [u8; 23],
) -> Result<Outcome, ShortBuffer>
    ensures value { result ≡ Ok (blended heard (outcome_of (L.Line.reply (L.Line.state line.old) telegram.now))) }
    ensures bytes { front.new ≡ kept heard (outcome_of (L.Line.reply (L.Line.state line.old) telegram.now)) front.old (asked_buffer (L.Line.reply (L.Line.state line.old) telegram.now) (replicate 23 0)) }
    ensures after { L.Line.state line.new ≡ L.Line.next (L.Line.state line.old) telegram.now }
{
    let mut other = [0; 23];
    let second = line.ask(telegram, &mut other)?;
    Ok(blend(heard, second, front, &other))
}

impl<P: Line, Q: Line> Line for Joint<P, Q> {
    ghost State = { JointState P.Line.State Q.Line.State };

    ghost state = { joint_state P.Line Q.Line };

    ghost wall = { joint_wall P.Line.wall Q.Line.wall };

    ghost reply = { joint_reply P.Line.reply Q.Line.reply };

    ghost next = { joint_next P.Line.next Q.Line.next };

    ghost fits = { joint_fits P.Line.fits Q.Line.fits };

    ghost pulls = { joint_pulls P.Line.pulls Q.Line.pulls };

    ghost laws = { joint_laws P.Line Q.Line };

    fn fit(&mut self, socket: u32, newcomer: Newcomer) -> Result<(), FitFault> {
        match side_of(socket) {
            Side::Left(n) => self.left.fit(n, newcomer),
            Side::Right(n) => self.right.fit(n, newcomer),
        }
    }

    fn pull(&mut self, socket: u32) -> Result<(), PullFault> {
        match side_of(socket) {
            Side::Left(n) => self.left.pull(n),
            Side::Right(n) => self.right.pull(n),
        }
    }

    fn ask(&mut self, telegram: &[u8], buffer: &mut [u8]) -> Result<Outcome, ShortBuffer> {
        let front = buffer.first_chunk_mut::<23>().ok_or(ShortBuffer)?;
        self.tally.count();
        let first = self.left.ask(telegram, front)?;
        ask_beside(&mut self.right, telegram, first, front)
    }

    fn socket(&self, n: u32) -> Option<Socket> {
        match side_of(n) {
            Side::Left(n) => self.left.socket(n),
            Side::Right(n) => self.right.socket(n),
        }
    }

    fn tally(&self) -> u64 {
        self.tally.value()
    }
}
