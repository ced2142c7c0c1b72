// The fields of a telegram as a script gives them: words name=value.
use std::alloc::Global;
use telegram::Telegram;
use words::{Unread, bytes_of, cut_at, decimal_byte, hex_byte, hex_word, serial_of};

// The fields that were given, each at most once.
#[derive(Default, Drop)]
pub struct Fields {
    address: Option<u8>,
    command: Option<u8>,
    serial: Option<[u8; 6]>,
    subfunction: Option<u16>,
    register: Option<u16>,
    value: Option<u16>,
    size: Option<u8>,
    code: Option<u8>,
    data: Option<Vec<u8>>,
}

impl Fields {
    pub fn parse(heap: Global, words: &[&[u8]]) -> Result<Fields, Unread> {
        let mut fields = Fields::default();
        for word in words {
            let (name, value) = cut_at(word, &b'=').ok_or(Unread::NoField)?;
            fields.put(heap, name, value)?;
        }
        Ok(fields)
    }

    fn put(&mut self, heap: Global, name: &[u8], value: &[u8]) -> Result<(), Unread> {
        match name {
            b"address" => put_once(&mut self.address, decimal_byte(value)?),
            b"command" => put_once(&mut self.command, hex_byte(value)?),
            b"serial" => put_once(&mut self.serial, serial_of(value)?),
            b"subfunction" => put_once(&mut self.subfunction, hex_word(value)?),
            b"register" => put_once(&mut self.register, hex_word(value)?),
            b"value" => put_once(&mut self.value, hex_word(value)?),
            b"size" => put_once(&mut self.size, decimal_byte(value)?),
            b"code" => put_once(&mut self.code, hex_byte(value)?),
            b"data" => put_once(&mut self.data, bytes_of(heap, &[value])?),
            _ => Err(Unread::UnknownField),
        }
    }

    // What is not given is zero, and the data empty.
    pub fn telegram(&self) -> Telegram<'_> {
        Telegram {
            address: self.address.unwrap_or_default(),
            command: self.command.unwrap_or_default(),
            serial: self.serial.unwrap_or_default(),
            subfunction: self.subfunction.unwrap_or_default(),
            register: self.register.unwrap_or_default(),
            value: self.value.unwrap_or_default(),
            size: self.size.unwrap_or_default(),
            code: self.code.unwrap_or_default(),
            data: self.data.as_deref().unwrap_or(&[]),
        }
    }
}

fn put_once<T: Drop>(place: &mut Option<T>, value: T) -> Result<(), Unread> {
    if place.is_some() {
        return Err(Unread::FieldTwice);
    }
    *place = Some(value);
    Ok(())
}
