// A telegram's outside: its length and its checksum.
ghost use Rattle.std.specs.Prelude.{◌≡◌};
ghost use Rattle.telegram.specs.Parts.{opened, shown};
ghost use Rattle.telegram.specs.Reads.{opening};

use crate::fault::TelegramFault;
use checksum::checksum;

// A telegram whose length and checksum are right, taken apart.
#[derive(Clone, Copy)]
pub struct Envelope<'a> {
    pub address: u8,
    pub command: u8,
    // what stands between the command and the checksum
    pub body: &'a [u8],
}

// Takes a telegram apart whose length and checksum are right. The checksum is that of all before it, the low byte first.
pub fn open_telegram<'a>(bytes: &'a [u8]) -> Result<Envelope<'a>, TelegramFault>
    ensures { shown opened result ≡ opening bytes.now }
{
    let Some((front, seal)) = bytes.split_last_chunk() else {
        return Err(TelegramFault::Length);
    };
    let [address, command, body @ ..] = front else {
        return Err(TelegramFault::Length);
    };
    if body.len() > 19 {
        return Err(TelegramFault::Length);
    }
    if *seal != checksum(front).to_le_bytes() {
        return Err(TelegramFault::Checksum);
    }
    Ok(Envelope {
        address: *address,
        command: *command,
        body,
    })
}
