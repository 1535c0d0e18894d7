use lwm2m_values::Value;
use object_defs::{InstancePath, Path, ResourceDef};
use octets::Bytes;
use scenario_mnemonics::Mnemonic;

/// What a line of scenario text says.
#[derive(Drop)]
pub enum Statement {
    /// `scenario 1`: the text is a scenario of version 1.
    Scenario,
    /// `class`: a class begins.
    Class,
    /// `notify con T`: the devices of the class send Confirmable notifications, with a first timeout of 2 or 3 seconds.
    Notify(u8),
    /// `account S`: the class has an account, by its Short Server ID from 1 to 65534.
    Account(u16),
    /// `object O`: the class has an object of its own, by its number from 10241 to 32768.
    Object(u16),
    /// `def R ..`: the object has a resource.
    Def(ResourceDef),
    /// `instance O I`: the class has an instance, whose number is from 0 to 65534.
    Instance(InstancePath),
    /// `value PATH KIND VALUE`: the class has a value, of any length.
    Value {
        /// The path to the value, of any count of numbers.
        path: Path,
        /// The value.
        value: Value,
    },
    /// `device C`: the row of a device of this class begins.
    Device(u16),
    /// `recv S HEX`: a datagram comes from a server, by its Short Server ID from 1 to 65534.
    Recv {
        /// The server.
        server: u16,
        /// The bytes of the datagram, of any length.
        bytes: Bytes,
    },
    /// `read S ..` and the other mnemonics: a datagram comes from a server, as what it asks for.
    Request {
        /// The server, by its Short Server ID from 1 to 65534.
        server: u16,
        /// The mnemonic, whose path may have any count of numbers.
        mnemonic: Mnemonic,
    },
    /// `tick N`: 1 to 86,400 seconds pass.
    Tick(u32),
    /// `put PATH KIND VALUE`: a value changes, or comes to be there.
    Put {
        /// The path to the value, of any count of numbers.
        path: Path,
        /// The value, of any length.
        value: Value,
    },
    /// `firmware N`: the download or the update of the firmware ends with this code, from 0 to 9.
    Firmware(u8),
    /// `post G`: a post to a group.
    Post(u8),
    /// `need G N`: the device waits for posts to a group.
    Need {
        /// The group.
        group: u8,
        /// How many posts, from 1 to 1,000,000.
        count: u32,
    },
}
