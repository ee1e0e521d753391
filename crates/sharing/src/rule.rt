//! The two rules by name.
ghost use Rattle.sharing.specs.Request.{Names};

use crate::Fault;
use std::str::FromStr;

/// A divider that is chosen when the program runs.
// An enum, since a function may not hand out a `dyn Divider`.
#[derive(Clone, Copy, PartialEq, Eq, Debug)]
pub enum Rule {
    /// `largest`: the odd units to the largest remainders.
    Largest,
    /// `running`: the odd units where the running sums step up.
    Running,
}

impl FromStr for Rule {
    type Err = Fault;

    ghost from_str_gives = { Names };

    fn from_str(word: &str) -> Result<Rule, Fault> {
        match word {
            "largest" => Ok(Rule::Largest),
            "running" => Ok(Rule::Running),
            _ => Err(Fault::UnknownRule),
        }
    }
}
