//! The numbers that the exported functions return.
ghost use Rattle.std.specs.Prelude.{◌≡◌};
ghost use Rattle.broadcast_c.specs.Calls.{outcome_code};

use broadcast_core::Outcome;

/// The version of these functions. It changes whenever one of them does.
pub const VERSION: u32 = 9;

/// Returns the version of these functions.
#[unsafe(no_mangle)]
pub extern "C" fn broadcast_c_version() -> u32
    ensures { result ≡ VERSION }
{
    VERSION
}

/// The call succeeded.
pub const OK: u32 = 0;

/// An allocation failed.
pub const MEMORY: u32 = 1;

/// The handle is empty.
pub const EMPTY: u32 = 2;

/// No message of the digest is cached, the stamp was not had, there is none that was asked for, or
/// the tokens are never there.
pub const NONE: u32 = 3;

/// The buffer is too short.
pub const SHORT: u32 = 4;

/// The ticket waits.
pub const WAITS: u32 = 5;

/// The message has more than 4,294,967,295 bytes.
pub const TOO_LONG: u32 = 6;

/// The packet ends too early.
pub const END_OF_BUFFER: u32 = 7;

/// The packet's message is longer than allowed.
pub const INVALID_LENGTH: u32 = 8;

/// Bytes follow the packet's message.
pub const EXTRA_DATA: u32 = 9;

/// The spans are no coverage, or the stamp is before the one in front of it.
pub const NO_COVERAGE: u32 = 10;

/// The digest was inserted at the front of the list.
pub const INSERTED: u32 = 0;

/// The digest was on the list.
pub const DUPLICATE: u32 = 1;

/// The key is not primary.
pub const INELIGIBLE: u32 = 2;

/// The message is charged more than the byte budget.
pub const OVERSIZE: u32 = 3;

/// A payload that does not decode is counted under this number, beside those of the outcomes.
pub const INVALID: u32 = 4;

/// Returns the number of an outcome.
pub fn code_of_outcome(outcome: Outcome) -> u32
    ensures { result ≡ outcome_code outcome }
{
    match outcome {
        Outcome::Inserted => INSERTED,
        Outcome::Duplicate => DUPLICATE,
        Outcome::Ineligible => INELIGIBLE,
        Outcome::Oversize => OVERSIZE,
    }
}
