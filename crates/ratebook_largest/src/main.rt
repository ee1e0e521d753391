//! Bills a page by largest remainder.
#![tactic(auto)]

use largest::LargestRemainder;
use ratebook::run;
use std::env;
use std::process::ExitCode;
use streams::conclude;

const NAME: &str = "ratebook-largest";

fn main(rt: HostRuntime) -> ExitCode {
    let word = match env::args(&rt) {
        Ok(mut words) => words.nth(1),
        Err(error) => {
            let _ = eprintln!(rt; "{NAME}: the words after its name cannot be read: {error}");
            return ExitCode::FAILURE;
        }
    };
    let answer = run(
        LargestRemainder,
        NAME,
        word.as_deref(),
        &mut rt.stdin(),
        &mut rt.stdout(),
        &mut rt.stderr(),
    );
    conclude(NAME, answer, &mut rt.stderr())
}
