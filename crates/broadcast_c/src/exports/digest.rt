//! The digest of bytes.
ghost use Rattle.std.specs.Prelude.{◌≡◌};
ghost use Rattle.sha2.specs.Sha256.{sha256};

use broadcast_core::Digest;

/// Computes the SHA-256 of the bytes.
#[unsafe(no_mangle)]
pub extern "C" fn broadcast_sha256(bytes: &[u8], out: &mut Digest)
    ensures { out.new ≡ sha256 bytes.now }
{
    *out = Digest::sha256(bytes);
}
