//! Messages that are records of blocks.
ghost use Rattle.std.specs.Prelude.{◌≡◌, ◌↔◌, length, Option, None, option_map, Err};
ghost use Rattle.broadcast_core.specs.declared.codec.CodecError.{CodecError};
ghost use Rattle.broadcast_core.specs.Codec.{Appends};
ghost use Rattle.broadcast_core.specs.Blocks.{mapped};
ghost use Rattle.broadcast_core.specs.BlockLaws.{mapped_within, mapped_refusals, mapped_reads_back};

use crate::codec::{Codec, CodecError, EncodeSize, Read, Write};
use crate::digested::Digestible;
use std::alloc::Global;
use std::marker::Model;

/// A record of blocks. As a message it is a [`Wire`].
pub trait Record: Sized {
    /// The fields, in the order in which they are written.
    type Fields: Codec + Drop;

    /// The fields of a record.
    ghost fields_of: { Self → Self.Fields };

    /// The record that has the fields.
    ghost of_fields: { Self.Fields → Self };

    /// Appends the encoding of the fields, as the tuple of references to them does.
    fn write_fields(&self, out: &mut Vec<u8>) -> Result<(), CodecError>
        ensures written { Appends (Self.Fields.encoding (fields_of self.now)) out.old.items
            out.new.items result }
        ensures unencodable { result ≡ Err CodecError.Unencodable
            ↔ (Self.Fields.encoding (fields_of self.now) ≡ None) };

    /// Returns the length of the encoding of the fields, as the tuple of references to them does.
    fn fields_size(&self) -> Option<usize>
        ensures { result ≡ option_map length (Self.Fields.encoding (fields_of self.now)) };

    /// Creates the record that has the fields.
    fn from_fields(fields: Self::Fields) -> Self
        ensures { result ≡ of_fields fields };

    /// The record that has the fields of a record is that record.
    ghost same: { (it : Self) → of_fields (fields_of it) ≡ it };
}

/// A message that is a record of blocks: it is written and read as the tuple of its fields.
#[derive(Debug, Drop)]
pub struct Wire<T>(pub T);

/// Contracts see it as its record.
impl<T> Model for Wire<T> {
    ghost Value = { T };

    ghost view = { λ message. message.0 };
}

impl<T: Digestible> Digestible for Wire<T> {
    type Digest = T::Digest;

    ghost digest_of = { T.digest_of };

    /// Computes the record's own digest.
    fn digest(&self) -> T::Digest {
        self.0.digest()
    }

    ghost exact = { T.exact };
}

impl<T: Record> Write for Wire<T> {
    ghost encoding = { λ message. T.Fields.encoding (T.fields_of message) };

    fn write(&self, out: &mut Vec<u8>) -> Result<(), CodecError> {
        self.0.write_fields(out)
    }
}

impl<T: Record> EncodeSize for Wire<T> {
    fn encode_size(&self) -> Option<usize> {
        self.0.fields_size()
    }
}

impl<T: Record> Read for Wire<T> {
    type Cfg = <T::Fields as Read>::Cfg;

    ghost reading = { λ cfg bytes. mapped T.of_fields (T.Fields.reading cfg bytes) };

    fn layout(buf: &[u8], cfg: &Self::Cfg) -> Result<usize, CodecError> {
        T::Fields::layout(buf, cfg)
    }

    fn read_cfg(alloc: Global, buf: &[u8], cfg: &Self::Cfg) -> Result<(Self, usize), CodecError> {
        let (fields, used) = T::Fields::read_cfg(alloc, buf, cfg)?;
        Ok((Wire(T::from_fields(fields)), used))
    }

    ghost within = { λ cfg. mapped_within T.of_fields (T.Fields.reading cfg)
        (T.Fields.within cfg) };

    ghost refusals = { λ cfg. mapped_refusals T.of_fields (T.Fields.reading cfg)
        (T.Fields.refusals cfg) };
}

impl<T: Record> Codec for Wire<T> {
    ghost reads_back = { λ cfg. mapped_reads_back T.of_fields T.fields_of T.same
        T.Fields.encoding (T.Fields.reading cfg) (T.Fields.reads_back cfg) };
}
