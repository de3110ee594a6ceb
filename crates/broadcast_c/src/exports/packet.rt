//! The wire format of a message: its length in four bytes, highest first, and then its bytes.
ghost use Rattle.std.specs.Prelude.{◌≡◌, ℕ, List, ◌++◌, length, Some, None, Err};
ghost use Rattle.broadcast_core.specs.Blocks.{byte_list_encoding, read_byte_list};
ghost use Rattle.broadcast_core.specs.Setting.{whole};
ghost use Rattle.broadcast_c.specs.Packets.{ReportsReading};

use crate::codes::{END_OF_BUFFER, EXTRA_DATA, INVALID_LENGTH, OK, TOO_LONG};
use broadcast_core::{CodecError, RangeCfg, byte_list};
use byteorder::{BigEndian, ByteOrder};

/// The number of bytes in front of a message.
const HEAD: usize = 4;

/// Where the message of a packet is.
#[repr(C)]
#[derive(Clone, Copy, Debug, PartialEq, Eq)]
pub struct Place {
    /// The number of bytes in front of the message.
    pub offset: usize,
    /// The number of bytes of the message.
    pub length: usize,
}

/// Reads a packet, whose message may have at most `max_len` bytes, and reports where the message
/// is. If the length in front is above `max_len`, `length` is that length; if bytes follow the
/// message, `length` is their number.
#[unsafe(no_mangle)]
pub extern "C" fn broadcast_packet_read(bytes: &[u8], max_len: usize, out: &mut Place) -> u32
    ensures { ReportsReading (whole (read_byte_list (record { min = 0; max = max_len })) bytes.now)
        bytes.now out.old out.new result }
{
    match byte_list::read_cfg(bytes, &RangeCfg::new(0, max_len)) {
        Ok((message, rest)) => {
            if rest.len() > 0 {
                return refuse(CodecError::ExtraData(rest.len()), out);
            }
            *out = Place {
                offset: HEAD,
                length: message.len(),
            };
            OK
        }
        Err(error) => refuse(error, out),
    }
}

// Returns the status of an error, and sets the length that the error has.
fn refuse(error: CodecError, out: &mut Place) -> u32
    ensures { (bytes : List ℕ) → ReportsReading (Err error) bytes out.old out.new result }
{
    match error {
        CodecError::InvalidLength(length) => {
            out.length = length;
            INVALID_LENGTH
        }
        CodecError::ExtraData(length) => {
            out.length = length;
            EXTRA_DATA
        }
        CodecError::EndOfBuffer => END_OF_BUFFER,
        CodecError::Invalid(_) => END_OF_BUFFER,
        CodecError::Unencodable => END_OF_BUFFER,
        CodecError::Memory => END_OF_BUFFER,
    }
}

/// Writes the four bytes that stand in front of a message of `len` bytes.
#[unsafe(no_mangle)]
pub extern "C" fn broadcast_packet_head(len: usize, out: &mut [u8; 4]) -> u32
    ensures written { result ≡ OK → (message : List ℕ) → length message ≡ len
        → byte_list_encoding message ≡ Some (out.new ++ message) }
    ensures too_long { ¬ (result ≡ OK) → (result ≡ TOO_LONG) × (out.new ≡ out.old)
        × ((message : List ℕ) → length message ≡ len → byte_list_encoding message ≡ None) }
{
    if len > u32::MAX as usize {
        return TOO_LONG;
    }
    BigEndian::write_u32(out, len as u32);
    OK
}
