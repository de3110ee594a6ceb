//! The arguments of the program.
use crate::text::words::parse_number;
use broadcast_core::RangeCfg;

/// The usage line.
pub const USAGE: &str = "usage: replay OWN SIZE [MAX [BUDGET]]";

/// The settings of a run.
#[derive(Clone, Copy, Debug, PartialEq, Eq)]
pub struct Settings {
    /// The own key.
    pub own: u64,
    /// The greatest number of digests in a list.
    pub deque_size: usize,
    /// The most bytes that a list is charged.
    pub byte_budget: u64,
    /// The lengths that the codec accepts.
    pub range: RangeCfg,
}

impl Settings {
    /// Returns the settings of the words `OWN SIZE [MAX [BUDGET]]`, or `None` for any other words.
    /// With no `MAX` every length is accepted, and with no `BUDGET` the budget is the greatest.
    pub fn parse(words: &[String]) -> Option<Settings> {
        let [own, size, limits @ ..] = words else {
            return None
        };
        let (range, byte_budget) = parse_limits(limits)?;
        Some(Settings {
            own: parse_number(own.as_bytes())?,
            deque_size: parse_number(size.as_bytes())? as usize,
            byte_budget,
            range,
        })
    }
}

/// Returns the range and the budget of the words `[MAX [BUDGET]]`, or `None` for any other words.
fn parse_limits(words: &[String]) -> Option<(RangeCfg, u64)> {
    match words {
        [] => Some((RangeCfg::any(), u64::MAX)),
        [max] => Some((up_to(max)?, u64::MAX)),
        [max, budget] => Some((up_to(max)?, parse_number(budget.as_bytes())?)),
        _ => None,
    }
}

/// Returns the lengths up to the number that is spelled.
fn up_to(max: &String) -> Option<RangeCfg> {
    let max = parse_number(max.as_bytes())?;
    Some(RangeCfg::new(0, max as usize))
}
