//! The header, and the customers' lines.
ghost use Rattle.std.specs.Prelude.{◌≡◌};
ghost use Rattle.register.specs.Register.{room, records};
ghost use Rattle.lines.specs.Lines.{line_of};
ghost use Rattle.page.specs.Pages.{Heads, Takes};
ghost use Rattle.page.specs.Steps.{LineEnters, readings, taken};

use crate::fault::{Cause, Fault, Refusal};
use crate::remaining::Lines;
use book::Intake;
use lines::Line;
use records::Customer;
use register::Register;
use units::Header;

/// The header that the first line holds.
pub(crate) fn header_of(line: &[u8]) -> Result<Header, Cause>
    ensures { Heads (line_of line.now) result }
{
    match lines::read(line)? {
        Line::Header {
            founding_total,
            capability,
        } => Ok(Header::new(founding_total, capability)?),
        _ => Err(Cause::Page(Refusal::HeaderPlace)),
    }
}

// Enters the customer of a line, and answers whether it is a customer's.
fn enter_line<D>(
    intake: &Intake<D>,
    line: &[u8],
    customers: &mut Register<'_, Customer>,
) -> Result<bool, Cause>
    ensures done { LineEnters (room customers.old) (records customers.old) (line_of line.now) result (records customers.new) }
    ensures places { room customers.new ≡ room customers.old }
{
    match lines::read(line)? {
        Line::Customer { figures, .. } => {
            intake.enter(customers, figures)?;
            Ok(true)
        }
        Line::Header { .. } => Err(Cause::Page(Refusal::HeaderPlace)),
        _ => Ok(false),
    }
}

/// Enters the customers of lines, up to the first that is not a customer's,
/// and answers the lines from it on.
pub(crate) fn enter_all<'a, D>(
    intake: &Intake<D>,
    mut lines: Lines<'a>,
    customers: &mut Register<'_, Customer>,
) -> Result<Lines<'a>, Fault>
    ensures { Takes (room customers.old) (records customers.old) lines.entry.number (readings lines.entry) (taken result (records customers.new)) }
{
    // No `for`, since the lines from the first other one on are handed on.
    let mut after = lines;
    while let Some((number, line)) = after.next() {
        if !enter_line(intake, line, customers).map_err(|cause| cause.at(number))? {
            break;
        }
        lines = after;
    }
    Ok(lines)
}
