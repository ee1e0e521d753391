//! Requests as words: the rule, the total, the weights.
ghost use Rattle.std.specs.Prelude.{◌≡◌, map, length, string_bytes};
ghost use Rattle.sharing.specs.Request.{Figures, Answered};

use crate::{Fault, Rule, table};
use std::alloc::Global;

// The figures that these words spell; the first of them is word 2 of the request.
fn figures_of(heap: Global, words: &[String]) -> Result<Vec<u64>, Fault>
    ensures { Figures (map string_bytes words.now) result }
{
    let mut found = Vec::new(heap);
    // A match: under `map_err` no proof was found that the fault is this one.
    for (i, word) in words.iter().enumerate() {
        match figures::read(word.as_bytes()) {
            Ok(figure) => found.push(figure)?,
            Err(refusal) => {
                return Err(Fault::Word {
                    word: i + 2,
                    refusal,
                });
            }
        }
    }
    Ok(found)
}

/// Answers a request: the table of the division that its words ask for.
///
/// Asks whether the first word names a rule, `largest` or `running` (3),
/// whether a total follows (4), then word by word whether it is a figure (5)
/// of at most 2^64 - 1 (6), and then what the divider asks (41, 42).
pub fn answer(heap: Global, words: &[String]) -> Result<String, Fault>
    ensures { Answered (map string_bytes words.now) result }
{
    let [first, others @ ..] = words else {
        return Err(Fault::UnknownRule);
    };
    let rule = first.as_str().parse::<Rule>()?;
    let figures = figures_of(heap, others)?;
    let [total, weights @ ..] = figures.as_slice() else {
        return Err(Fault::NoTotal);
    };
    table(heap, &rule, *total, weights)
}
