//! Bills a page by running sums.
#![tactic(auto)]

use ratebook::run;
use running::RunningSums;
use std::env;
use std::process::ExitCode;
use streams::conclude;

const NAME: &str = "ratebook-running";

fn main(rt: HostRuntime) -> ExitCode {
    let word = match env::args(&rt) {
        Ok(mut words) => words.nth(1),
        Err(error) => {
            let _ = eprintln!(rt; "{NAME}: the words after its name cannot be read: {error}");
            return ExitCode::FAILURE;
        }
    };
    let answer = run(
        RunningSums,
        NAME,
        word.as_deref(),
        &mut rt.stdin(),
        &mut rt.stdout(),
        &mut rt.stderr(),
    );
    conclude(NAME, answer, &mut rt.stderr())
}
