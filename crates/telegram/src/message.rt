// The fields of a telegram, question or answer. A form has some of them; the others are zero.
// The data is lent: of a telegram that was read, it is that part of the caller's bytes.
#[derive(Clone, Copy, Default)]
pub struct Telegram<'a> {
    pub address: u8,
    // any byte, since a telegram whose command nobody knows can be read and is refused by its number
    pub command: u8,
    // the mask of a question, the serial of an answer
    pub serial: [u8; 6],
    pub subfunction: u16,
    pub register: u16,
    // the value of a write of one register, the count of registers otherwise
    pub value: u16,
    // the byte count
    pub size: u8,
    // the code of an exception
    pub code: u8,
    pub data: &'a [u8],
}
