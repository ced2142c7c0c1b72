// The fields of a question as C has them.
ghost use Rattle.std.specs.Prelude.{◌≡◌, ◌+◌, ◌≤◌, length};
ghost use Rattle.telegram.specs.Parts.{fields};

use telegram::Telegram;

// The data is not copied: of a question that was read, it is `data_len` bytes of the caller's own from `data_at` on; where
// there is none, both are 0. C has no slices, so that place and length are numbers here.
#[repr(C)]
#[derive(Clone, Copy)]
pub struct PanelFields {
    pub address: u8,
    pub command: u8,
    // the mask
    pub serial: [u8; 6],
    pub subfunction: u16,
    pub register: u16,
    // the value of a write of one register, the count of registers otherwise
    pub value: u16,
    // the byte count
    pub size: u8,
    // no question has one: 0
    pub code: u8,
    pub data_at: u8,
    pub data_len: u8,
}

impl PanelFields {
    ghost use Rattle.panel_c.specs.Panel.{located, fields_with};

    // The fields of a question of n bytes. Its data is the last part before the checksum.
    pub(crate) fn of(q: &Telegram, n: usize) -> PanelFields
        requires { (length q.now.«data».now + 4 ≤ n) × (n ≤ 23) }
        ensures { result ≡ located n (fields q.now) }
    {
        let len = q.data.len();
        let data_at = if len == 0 { 0 } else { n - 2 - len };
        PanelFields {
            address: q.address,
            command: q.command,
            serial: q.serial,
            subfunction: q.subfunction,
            register: q.register,
            value: q.value,
            size: q.size,
            code: q.code,
            data_at: data_at as u8,
            data_len: len as u8,
        }
    }

    // The question that the fields make with this data, which lies anywhere. Where the struct says that data lies plays no part.
    pub(crate) fn telegram<'a>(&self, data: &'a [u8]) -> Telegram<'a>
        ensures { fields result ≡ fields_with self.now «data».now }
    {
        Telegram {
            address: self.address,
            command: self.command,
            serial: self.serial,
            subfunction: self.subfunction,
            register: self.register,
            value: self.value,
            size: self.size,
            code: self.code,
            data,
        }
    }
}
