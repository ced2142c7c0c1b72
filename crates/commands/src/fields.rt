// The fields of a telegram as they are printed: words name=value.
use crate::hex::Hex;
use std::fmt;
use telegram::Telegram;

// All nine, in their order.
#[derive(Clone, Copy)]
pub struct Printed<'a>(pub Telegram<'a>);

impl fmt::Display for Printed<'_> {
    fn fmt<W: fmt::Write>(&self, f: &mut fmt::Formatter<W>) -> fmt::Result {
        let Telegram {
            address,
            command,
            serial,
            subfunction,
            register,
            value,
            size,
            code,
            data,
        } = &self.0;
        let serial = Hex::joined(serial);
        let data = Hex::joined(data);
        write!(
            f,
            "address={address} command={command:02X} serial={serial} subfunction={subfunction:04X} "
        )?;
        write!(
            f,
            "register={register:04X} value={value:04X} size={size} code={code:02X} data={data}"
        )
    }
}
