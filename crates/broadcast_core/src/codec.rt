//! The encoding of messages as bytes.
ghost use Rattle.std.specs.Prelude.{◌≡◌, ℕ, ◌≤◌, ◌++◌, ◌↔◌, List, length, IsTrue, Option, Some, None, Result, Ok, Err};
ghost use Rattle.std.specs.Option.{option_map};
ghost use Rattle.broadcast_core.specs.declared.codec.CodecError.{CodecError};
ghost use Rattle.broadcast_core.specs.Codec.{Appends, IsRefusal, layout_of, GivesOrLacks};
ghost use Rattle.broadcast_core.specs.Setting.{whole};

use std::alloc::{AllocError, Global};
use thiserror::Error;

pub mod blocks;
pub mod byte_list;

/// The reason why bytes do not decode, or a message does not encode.
#[derive(Clone, Copy, Debug, PartialEq, Eq, Error)]
pub enum CodecError {
    /// The bytes end too early.
    #[error("the bytes end too early")]
    EndOfBuffer,
    /// A length is out of its range.
    #[error("a length of {0} is out of the range")]
    InvalidLength(usize),
    /// The message type refuses the bytes for a reason of its own, which has this number.
    #[error("the message is invalid: reason {0}")]
    Invalid(u32),
    /// This number of bytes follows the message.
    #[error("{0} bytes are left over")]
    ExtraData(usize),
    /// The message has no encoding.
    #[error("the message has no encoding")]
    Unencodable,
    /// An allocation failed.
    #[error("out of memory")]
    Memory,
}

impl From<AllocError> for CodecError {
    ghost from_gives = { λ _ e. e ≡ CodecError.Memory };

    fn from(_error: AllocError) -> CodecError {
        CodecError::Memory
    }
}

/// The range of lengths that a byte list may have, both ends included. It is empty if `min` is
/// above `max`.
#[derive(Clone, Copy, Debug, PartialEq, Eq)]
pub struct RangeCfg {
    /// The least length.
    pub min: usize,
    /// The greatest length.
    pub max: usize,
}

impl RangeCfg {
    /// Creates the range from `min` to `max`.
    pub const fn new(min: usize, max: usize) -> Self
        ensures { result ≡ record { min = min; max = max } }
    {
        RangeCfg { min, max }
    }

    /// Creates the range of all lengths.
    pub const fn any() -> Self
        ensures { result ≡ record { min = 0; max = usize.MAX } }
    {
        RangeCfg::new(0, usize::MAX)
    }

    /// Returns whether `n` is in the range.
    pub fn contains(&self, n: usize) -> bool
        ensures { IsTrue result ↔ ((self.now.min ≤ n) × (n ≤ self.now.max)) }
    {
        self.min <= n && n <= self.max
    }
}

/// A type whose values are written as bytes.
pub trait Write {
    /// The encoding of a value, if it has one.
    ghost encoding: { Self → Option (List ℕ) };

    /// Appends the encoding to `out`. On an error `out` stays as it was.
    fn write(&self, out: &mut Vec<u8>) -> Result<(), CodecError>
        ensures written { Appends (encoding self.now) out.old.items out.new.items result }
        ensures unencodable { result ≡ Err CodecError.Unencodable ↔ (encoding self.now ≡ None) };
}

/// A type whose values know the length of their encoding.
pub trait EncodeSize: Write {
    /// Returns the length of the encoding in bytes, or `None` if there is none. Does not allocate.
    fn encode_size(&self) -> Option<usize>
        ensures { result ≡ option_map length (Self.encoding self.now) };
}

/// A type whose values are read from bytes.
pub trait Read {
    /// The limits on the values that are read.
    type Cfg;

    /// The value at the front of the bytes and the number of bytes that it takes, or the first
    /// error in reading order.
    ghost reading: { Self.Cfg → List ℕ → Result (Self × ℕ) CodecError };

    /// Returns the number of bytes that the value at the front takes. Does not allocate.
    fn layout(buf: &[u8], cfg: &Self::Cfg) -> Result<usize, CodecError>
        ensures { result ≡ layout_of (reading cfg.now buf.now) };

    /// Reads the value at the front, and returns it with the number of bytes that it takes. An
    /// allocation fails only if there is no other error.
    fn read_cfg(alloc: Global, buf: &[u8], cfg: &Self::Cfg) -> Result<(Self, usize), CodecError>
    where
        Self: Sized,
        ensures { GivesOrLacks result (reading cfg.now buf.now) };

    /// A value takes at most the bytes that there are.
    ghost within: { (cfg : Self.Cfg) (bytes : List ℕ) (v : Self) (n : ℕ)
        → reading cfg bytes ≡ Ok (v, n) → n ≤ length bytes };

    /// The bytes end too early, a length is out of its range, or the type has a reason of its own.
    ghost refusals: { (cfg : Self.Cfg) (bytes : List ℕ) (e : CodecError)
        → reading cfg bytes ≡ Err e → IsRefusal e };
}

/// A type whose encoding decodes to the value that was encoded, if it decodes.
pub trait Codec: Write + EncodeSize + Read {
    /// If a value is read from an encoding that any bytes follow, it is the one that was encoded,
    /// and takes the length of the encoding.
    ghost reads_back: { (cfg : Self.Cfg) (v w : Self) (encoded rest : List ℕ) (n : ℕ)
        → Self.encoding v ≡ Some encoded → Self.reading cfg (encoded ++ rest) ≡ Ok (w, n)
        → (w ≡ v) × (n ≡ length encoded) };
}

/// Decodes all of the bytes as one value.
///
/// The layout and the number of bytes are checked before anything is allocated.
pub fn decode_cfg<M: Read + Drop>(alloc: Global, buf: &[u8], cfg: &M::Cfg) -> Result<M, CodecError>
    ensures { GivesOrLacks result (whole (M.reading cfg.now) buf.now) }
{
    let used = M::layout(buf, cfg)?;
    if used < buf.len() {
        return Err(CodecError::ExtraData(buf.len() - used));
    }
    let (value, _) = M::read_cfg(alloc, buf, cfg)?;
    Ok(value)
}
