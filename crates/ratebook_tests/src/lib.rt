//! Tests of a page program over sources and sinks in memory: whole, slow, stopping and failing.
#![tactic(auto)]

ghost use Rattle.std.specs.Prelude.{◌≡◌, Some, None};
ghost use Rattle.std.specs.Process.{exit_status};
ghost use Rattle.ratebook.specs.Answers.{Comes, status_of};

#[cfg(test)]
mod pages;
#[cfg(test)]
mod tests;

use divider::Divider;
use std::convert::Infallible;
use std::fmt::Display;
use std::process::ExitCode;
use streams::{Failure, Sink, Source};

// A page in memory, which is always read.
#[derive(Drop)]
struct Bytes<'a> {
    rest: &'a [u8],
}

impl Source for Bytes<'_> {
    type Error = Infallible;

    ghost left = { λ page. Some page.rest.now };

    fn read(&mut self, buffer: &mut [u8]) -> Result<usize, Infallible> {
        let count = self.rest.len().min(buffer.len());
        buffer[..count].copy_from_slice(&self.rest[..count]);
        let rest: &[u8] = self.rest;
        self.rest = &rest[count..];
        Ok(count)
    }
}

// Takes all that is written, and keeps nothing.
#[derive(Drop)]
struct Nowhere;

impl Sink for Nowhere {
    type Error = Infallible;

    fn write_all(&mut self, _bytes: &[u8]) -> Result<(), Infallible> {
        Ok(())
    }

    fn write_line<T: Display + Drop>(&mut self, _text: T) -> Result<(), Infallible> {
        Ok(())
    }
}

/// The status that a page ends with. There is one for every page, since where nothing that the
/// program is lent can fail, neither can the program.
pub fn status<D: Divider + Drop>(divider: D, page: &[u8]) -> ExitCode
    ensures { Comes D.Divider.meaning divider page.now (λ o. exit_status result ≡ status_of o) }
{
    let mut input = Bytes { rest: page };
    match ratebook::run(divider, "", None, &mut input, &mut Nowhere, &mut Nowhere) {
        Ok(code) => code,
        Err(Failure::Reading(error) | Failure::Writing(error, _) | Failure::Reporting(error)) => {
            match error {}
        }
    }
}
