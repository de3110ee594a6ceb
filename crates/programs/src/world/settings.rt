//! The arguments of the program.
ghost use Rattle.std.specs.Prelude.{◌≡◌};
ghost use Rattle.std.specs.Ordering.{nat_cmp};
ghost use Rattle.broadcast_world.specs.Made.{shares_key};

use crate::text::fault::Fault;
use crate::text::line_error::LineError;
use crate::text::recipients::parse_keys;
use crate::text::words::expect_number;
use broadcast_core::Items;
use broadcast_world::{WorldError, shares_key};
use std::alloc::Global;

/// The usage line.
pub const USAGE: &str = "usage: world SIZE NODES HOSTILE [BUDGET]";

/// The settings of a run.
#[derive(Drop)]
pub struct Settings {
    /// The greatest number of digests in a list.
    pub deque_size: usize,
    /// The keys of the nodes.
    pub nodes: Items<u64>,
    /// The hostile keys.
    pub hostile: Items<u64>,
    /// The most bytes that a list is charged.
    pub byte_budget: u64,
}

impl Settings {
    /// Returns the settings of the words `SIZE NODES HOSTILE [BUDGET]`. With no `BUDGET` the budget
    /// is the greatest.
    ///
    /// # Errors
    ///
    /// Fails with [`Fault::Usage`] for any other words, and with [`Fault::Memory`] if an allocation
    /// fails.
    pub fn parse(alloc: Global, words: &[String]) -> Result<Settings, Fault> {
        let [size, nodes, hostile, budget @ ..] = words else {
            return Err(Fault::Usage(USAGE));
        };
        match Settings::read(alloc, size, nodes, hostile, budget) {
            Ok(settings) => Ok(settings),
            Err(LineError::Syntax) => Err(Fault::Usage(USAGE)),
            Err(LineError::Memory) => Err(Fault::Memory),
        }
    }

    /// Returns the settings of a size, nodes, hostile keys and perhaps a budget.
    fn read(
        alloc: Global,
        size: &String,
        nodes: &String,
        hostile: &String,
        budget: &[String],
    ) -> Result<Settings, LineError> {
        let byte_budget = read_budget(budget)?;
        let deque_size = expect_number(size.as_bytes())? as usize;
        let nodes = parse_keys(alloc, nodes.as_bytes())?;
        let hostile = parse_hostile(alloc, hostile.as_bytes())?;
        Ok(Settings {
            deque_size,
            nodes: Items::from_vec(nodes),
            hostile: Items::from_vec(hostile),
            byte_budget,
        })
    }

    /// Returns whether a key is twice a node, or a node and hostile. Does not allocate.
    pub fn share_key(&self) -> bool
        ensures { result ≡ shares_key nat_cmp self.now.nodes self.now.hostile }
    {
        shares_key(self.nodes.as_slice(), self.hostile.as_slice())
    }
}

/// Returns the budget, or the greatest for no words.
fn read_budget(words: &[String]) -> Result<u64, LineError> {
    match words {
        [] => Ok(u64::MAX),
        [budget] => expect_number(budget.as_bytes()),
        _ => Err(LineError::Syntax),
    }
}

/// Returns the keys with commas between, or none for `-`.
fn parse_hostile(alloc: Global, word: &[u8]) -> Result<Vec<u64>, LineError> {
    if word == b"-".as_slice() {
        return Ok(Vec::new(alloc));
    }
    parse_keys(alloc, word)
}

/// Returns the fault of worlds that were not made.
pub fn world_fault(error: WorldError) -> Fault {
    match error {
        WorldError::SharedKey => Fault::SharedKey,
        WorldError::Memory => Fault::Memory,
    }
}
