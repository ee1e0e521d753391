//! Shares a total out by weights: `share largest 101 50 30 20`.
#![tactic(auto)]

ghost use Rattle.std.specs.Prelude.{◌≡◌, ◌↔◌, IsTrue, IfOk, [], ◌∷◌, map, drop, codes, string_bytes};
ghost use Rattle.std.specs.Vec.Iter.{into_iter_items};
ghost use Rattle.share.specs.Shares.{Shares};

use sharing::{Fault, answer};
use std::alloc::{AllocError, Global};
use std::env;
use std::env::Args;
use std::process::ExitCode;
use streams::{Failure, Sink, conclude};

const USAGE: &str = "usage: share RULE TOTAL WEIGHT...

RULE is largest (the odd units go to the largest remainders) or running (they
go as the running sums give them). TOTAL and the weights are whole numbers.
Each weight gets a line: its place, the weight, the whole part and the
remainder of total * weight / sum of weights, and its share; then come the
sums of these columns.

example: share largest 101 50 30 20";

// The words after the program's name.
fn words(arguments: Args, heap: Global) -> Result<Vec<String>, AllocError>
    ensures { IfOk result (λ words. words.items ≡ drop 1 (into_iter_items arguments)) }
{
    arguments.skip(1).collect(heap)
}

// Whether help was asked for.
fn asks_help(words: &[String]) -> bool
    ensures { IsTrue result ↔ (map string_bytes words.now ≡ codes "--help" ∷ []) }
{
    matches!(words, [word] if word.as_str() == "--help")
}

// Writes the table that the words ask for, or says why there is none, or how the program is used.
fn share<R, W: Sink, E: Sink>(
    heap: Global,
    words: &[String],
    output: &mut W,
    errors: &mut E,
) -> Result<ExitCode, Failure<R, W::Error, E::Error>>
    ensures { Shares (map string_bytes words.now) (W.held output.old) (W.held output.new) (E.held errors.old) (E.held errors.new) result }
{
    if asks_help(words) {
        return match errors.write_line(USAGE) {
            Ok(()) => Ok(ExitCode::SUCCESS),
            Err(error) => Err(Failure::Reporting(error)),
        };
    }
    match answer(heap, words) {
        Ok(table) => match output.write_all(table.as_bytes()) {
            Ok(()) => Ok(ExitCode::SUCCESS),
            Err(error) => Err(Failure::Writing(error, ExitCode::SUCCESS)),
        },
        Err(fault) => {
            let said = match fault.number() {
                Some(number) => errors.write_line(format_args!(
                    "share: refused with {number}: {fault}"
                )),
                None => errors.write_line(format_args!("share: {fault}")),
            };
            match said {
                Ok(()) => Ok(ExitCode::FAILURE),
                Err(error) => Err(Failure::Reporting(error)),
            }
        }
    }
}

fn main(rt: HostRuntime) -> ExitCode {
    let arguments = match env::args(&rt) {
        Ok(arguments) => arguments,
        Err(error) => {
            let _ = eprintln!(rt; "share: the words after its name cannot be read: {error}");
            return ExitCode::FAILURE;
        }
    };
    let Ok(words) = words(arguments, rt.alloc()) else {
        let _ = eprintln!(rt; "share: {}", Fault::NoMemory);
        return ExitCode::FAILURE;
    };
    let answer = share(rt.alloc(), &words, &mut rt.stdout(), &mut rt.stderr());
    conclude("share", answer, &mut rt.stderr())
}
