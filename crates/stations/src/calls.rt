// What a station makes of a telegram.
ghost use Rattle.std.specs.Prelude.{◌≡◌, ◌≢◌, ◌+◌, ◌<◌, ◌≤◌, ◌++◌, ◌⊎◌, ◌==◌, ◌&&◌, not, length, drop, MatchOption};
ghost use Rattle.std.specs.Option.{option_map};
ghost use Rattle.telegram.specs.Forms.{by_serial};
ghost use Rattle.telegram.specs.Parts.{fields, opened};
ghost use Rattle.telegram.specs.Writes.{answer};
ghost use Rattle.telegram.proofs.Questions.{IsQuestion};
ghost use Rattle.wall.specs.Lines.{done_unless};
ghost use Rattle.wall.specs.Tells.{laid};
ghost use Rattle.stations.specs.declared.kind.Action.TheVariants.{Echo};
ghost use Rattle.stations.specs.Device.{register_at, read_out, all_written};
ghost use Rattle.stations.specs.Calls.{meant, call, call_in, named, payload, count_right, may_do, refused_by, refusal, told, answer_to, exception, reply, carried};
ghost use Rattle.stations.specs.Grants.{Granted, Answerable};
ghost use Rattle.stations.specs.Parts.{state, called};
ghost use Rattle.stations.specs.Spans.{Starts};

use crate::device::Device;
use crate::kind::{Action, FixedKind, Kind, Refusal};
use crate::question::Question;
use crate::range::Registers;
use crate::stations::StationOf;
use serial::has_no_zero;
use telegram::{Envelope, Telegram, open_telegram, write_answer, write_exception};

// What a telegram is to a station.
#[derive(Clone, Copy)]
pub enum Call<'a> {
    // not for it, or broken
    Nothing,
    // a command that it does not know
    Unknown(u8),
    Asked(Question<'a>),
}

impl<K: FixedKind> StationOf<K> {
    // Whether a question is meant for this station: one by serial has a mask.
    fn is_meant(&self, q: &Question) -> bool
        ensures { result ≡ meant K.KIND (state self.now.device) (fields q.now.telegram) }
    {
        if !q.command.is_by_serial() {
            return true;
        }
        let mask = q.telegram.serial;
        if K::KIND.speaks() {
            return self.device.serial.fits(mask);
        }
        q.telegram.address != 0 && has_no_zero(mask) && self.device.serial.fits(mask)
    }

    // What a telegram is to this station.
    pub(crate) fn call<'a>(&self, telegram: &'a [u8]) -> Call<'a>
        ensures { called result ≡ call K.KIND (state self.now.device) telegram.now }
    {
        let Ok(envelope) = open_telegram(telegram) else {
            return Call::Nothing;
        };
        if telegram.len() > K::KIND.longest()
            || (envelope.address != 0 && envelope.address != self.device.address.value())
        {
            return Call::Nothing;
        }
        self.call_in(&envelope)
    }

    // What is in a telegram of good length and checksum that is for this station or for all.
    fn call_in<'a>(&self, envelope: &Envelope<'a>) -> Call<'a>
        ensures { called result ≡ call_in K.KIND (state self.now.device) (opened envelope.now) }
    {
        let Some(command) = K::KIND.known(envelope.command) else {
            return if envelope.address == 0 {
                Call::Nothing
            } else {
                Call::Unknown(envelope.command)
            };
        };
        let Ok(telegram) = envelope.question() else {
            return Call::Nothing;
        };
        let q = Question {
            action: Action::from(command),
            command,
            telegram,
        };
        if self.is_meant(&q) {
            Call::Asked(q)
        } else {
            Call::Nothing
        }
    }
}

impl Question<'_> {
    // The registers that it names, if it names any and they are registers that there can be.
    fn named(&self) -> Option<Registers>
        ensures { MatchOption result ((named self.now.action (fields self.now.telegram) ≡ 0) ⊎ (65536 < self.now.telegram.register + named self.now.action (fields self.now.telegram))) (Starts self.now.telegram.register (named self.now.action (fields self.now.telegram))) }
    {
        let count = match self.action {
            Action::Echo => 0,
            Action::WriteOne => 1,
            Action::ReadHolding | Action::ReadInput | Action::WriteSeveral => self.telegram.value,
        };
        Registers::starting_at(self.telegram.register, count)
    }

    fn has_right_count(&self, kind: Kind) -> bool
        ensures { result ≡ count_right kind self.now.action (fields self.now.telegram) }
    {
        let count = self.telegram.value;
        match self.action {
            Action::Echo | Action::WriteOne => true,
            Action::ReadHolding | Action::ReadInput => 1 <= count
                && count <= kind.most_read(self.command),
            Action::WriteSeveral => {
                let bytes = 2 * usize::from(count);
                1 <= count
                    && usize::from(self.telegram.size) == bytes
                    && self.telegram.data.len() == bytes
            }
        }
    }

    // Plain commands to address 0 are not answered.
    fn is_unanswered(&self) -> bool
        ensures { result ≡ (self.now.telegram.address == 0 && not (by_serial self.now.telegram.command)) }
    {
        self.telegram.address == 0 && !self.command.is_by_serial()
    }
}

impl Device {
    // Whether the question asks for nothing that this station may not write.
    fn may_do(&self, q: &Question, registers: Registers) -> bool
        requires { Starts q.now.telegram.register (named q.now.action (fields q.now.telegram)) registers }
        ensures { result ≡ may_do (state self.now) q.now.action (fields q.now.telegram) }
    {
        match q.action {
            Action::Echo | Action::ReadHolding | Action::ReadInput => true,
            Action::WriteOne | Action::WriteSeveral => self.may_write_all(registers),
        }
    }

    // Carries a question out that is not refused.
    fn carry_out(&mut self, q: &Question)
        ensures { state self.new ≡ all_written (state self.old) q.now.telegram.register (payload q.now.action (fields q.now.telegram)) }
    {
        match q.action {
            Action::Echo | Action::ReadHolding | Action::ReadInput => {}
            Action::WriteOne => self.write_register(q.telegram.register, q.telegram.value),
            Action::WriteSeveral => self.write_all(q.telegram.register, q.telegram.data),
        }
    }

    // The exception, into the front of a buffer. With 23 bytes of room it is never refused.
    pub(crate) fn put_exception(
        &self,
        command: u8,
        refusal: Refusal,
        buffer: &mut [u8; 23],
    ) -> usize
        ensures size { result ≡ length (exception (state self.now) command refusal) }
        ensures bytes { buffer.new ≡ exception (state self.now) command refusal ++ drop result buffer.old }
    {
        write_exception(
            self.address.value(),
            command,
            self.serial.to_bytes(),
            u8::from(refusal),
            buffer,
        )
        .unwrap_or(0)
    }

    // The answer to a question with its data, from the address in force now.
    fn answer_to<'a>(&self, q: &Question, told: &'a [u8]) -> Telegram<'a>
        requires { length told.now ≤ 19 }
        ensures { fields result ≡ answer_to (state self.now) (fields q.now.telegram) told.now }
    {
        Telegram {
            address: self.address.value(),
            command: q.telegram.command,
            serial: self.serial.to_bytes(),
            subfunction: q.telegram.subfunction,
            register: q.telegram.register,
            value: q.telegram.value,
            size: told.len() as u8,
            code: 0,
            data: told,
        }
    }

    // An answer with its data, into the front of a buffer. One that fits is never refused there.
    // That it fits a telegram hangs on the station and the question together, so no struct of one of them holds it.
    fn put_answer(&self, q: &Question, told: &[u8], buffer: &mut [u8; 23]) -> usize
        requires { Answerable (state self.now) (fields q.now.telegram) told.now }
        ensures size { result ≡ length (answer (answer_to (state self.now) (fields q.now.telegram) told.now)) }
        ensures bytes { buffer.new ≡ answer (answer_to (state self.now) (fields q.now.telegram) told.now) ++ drop result buffer.old }
    {
        write_answer(&self.answer_to(q, told), buffer).unwrap_or(0)
    }
}

impl<K: FixedKind> StationOf<K> {
    // Why a question about registers is not carried out: first the count, then the registers, then the right.
    fn refused_by(&self, q: &Question) -> Result<(), Refusal>
        requires { q.now.action ≢ Echo }
        ensures { result ≡ done_unless (refused_by K.KIND (state self.now.device) q.now.action (fields q.now.telegram)) }
    {
        if !q.has_right_count(K::KIND) {
            return Err(Refusal::Count);
        }
        let named = q.named().ok_or(Refusal::Register)?;
        let range = K::KIND.range(q.action).ok_or(Refusal::Register)?;
        if !range.contains_all(named) {
            return Err(Refusal::Register);
        }
        if self.device.may_do(q, named) {
            Ok(())
        } else {
            Err(Refusal::Write)
        }
    }

    fn refusal(&self, q: &Question) -> Result<(), Refusal>
        ensures { result ≡ done_unless (refusal K.KIND (state self.now.device) q.now.action (fields q.now.telegram)) }
    {
        match q.action {
            Action::Echo => {
                if q.telegram.subfunction == 0 {
                    Ok(())
                } else {
                    Err(Refusal::Function)
                }
            }
            _ => self.refused_by(q),
        }
    }

    // The answer to a read.
    fn put_read(&self, q: &Question, buffer: &mut [u8; 23]) -> usize
        requires { (q.now.telegram.value ≤ 9) × ((q.now.telegram.register + q.now.telegram.value ≤ 65536) × (Answerable (state self.now.device) (fields q.now.telegram) (read_out (register_at K.KIND (state self.now.device) q.now.action) q.now.telegram.register q.now.telegram.value))) }
        ensures size { result ≡ length (answer (answer_to (state self.now.device) (fields q.now.telegram) (read_out (register_at K.KIND (state self.now.device) q.now.action) q.now.telegram.register q.now.telegram.value))) }
        ensures bytes { buffer.new ≡ answer (answer_to (state self.now.device) (fields q.now.telegram) (read_out (register_at K.KIND (state self.now.device) q.now.action) q.now.telegram.register q.now.telegram.value)) ++ drop result buffer.old }
    {
        let words = self.read_out(q.action, q.telegram.register, q.telegram.value);
        let bytes = words.as_flattened();
        self.device
            .put_answer(q, &bytes[..2 * usize::from(q.telegram.value)], buffer)
    }

    // The answer to a question that was carried out.
    fn put_done(&self, q: &Question, buffer: &mut [u8; 23]) -> usize
        requires { (Granted K.KIND q.now.action (fields q.now.telegram)) × (Answerable (state self.now.device) (fields q.now.telegram) (told K.KIND (state self.now.device) q.now.action (fields q.now.telegram))) }
        ensures size { result ≡ length (answer (answer_to (state self.now.device) (fields q.now.telegram) (told K.KIND (state self.now.device) q.now.action (fields q.now.telegram)))) }
        ensures bytes { buffer.new ≡ answer (answer_to (state self.now.device) (fields q.now.telegram) (told K.KIND (state self.now.device) q.now.action (fields q.now.telegram))) ++ drop result buffer.old }
    {
        match q.action {
            Action::Echo => self.device.put_answer(q, q.telegram.data, buffer),
            Action::ReadHolding | Action::ReadInput => self.put_read(q, buffer),
            Action::WriteOne | Action::WriteSeveral => self.device.put_answer(q, &[], buffer),
        }
    }

    // Does what a question asks, or refuses it, and answers it unless it is a plain one to address 0. Whether it may is
    // found first, by the rights held before it.
    pub(crate) fn obey(&mut self, q: &Question, buffer: &mut [u8; 23]) -> Option<usize>
        requires { IsQuestion (fields q.now.telegram) }
        ensures size { result ≡ option_map length (reply K.KIND (state self.old.device) (fields q.now.telegram)) }
        ensures bytes { buffer.new ≡ laid (reply K.KIND (state self.old.device) (fields q.now.telegram)) buffer.old }
        ensures after { state self.new.device ≡ carried K.KIND (state self.old.device) (fields q.now.telegram) }
    {
        let silent = q.is_unanswered();
        match self.refusal(q) {
            Err(refusal) => {
                if silent {
                    return None;
                }
                Some(
                    self.device
                        .put_exception(q.telegram.command, refusal, buffer),
                )
            }
            Ok(()) => {
                self.device.carry_out(q);
                if silent {
                    return None;
                }
                Some(self.put_done(q, buffer))
            }
        }
    }
}
