//! Customers are taken in.
ghost use Rattle.std.specs.Prelude.{◌≡◌, true};
ghost use Rattle.register.specs.Register.{records, room, Kept};
ghost use Rattle.book.specs.Customers.{key, in_ranges, entered, Enters};

use crate::figures::Figures;
use crate::refusal::Refusal;
use crate::stages::Intake;
use records::Customer;
use register::Register;
use units::{CONSERVATION, ELECTED, FOUNDING, LARGE, MEASURED, NUMBER, RESOURCES, RETAIL, SLICE};

impl Figures {
    /// Whether every figure is in its range.
    pub fn are_in_range(&self) -> bool
        ensures { result ≡ in_ranges self.now }
    {
        NUMBER.admits(self.number)
            && MEASURED.admits(self.measured)
            && FOUNDING.admits(self.founding)
            && CONSERVATION.admits(self.conservation)
            && RETAIL.admits(self.retail)
            && LARGE.admits(self.large)
            && RESOURCES.admits(self.resources)
            && ELECTED.admits(self.elected)
            && SLICE.admits(self.slice)
    }

    // The record of a customer that is just entered.
    fn record(self) -> Customer
        requires { in_ranges self ≡ true }
        ensures { result ≡ entered self }
    {
        Customer {
            number: self.number as u32,
            measured: self.measured as u32,
            founding: self.founding as u32,
            conservation: self.conservation as u32,
            retail: self.retail as u32,
            large: self.large as u32,
            resources: self.resources as u32,
            elected: self.elected as u32,
            slice: self.slice as u32,
            mark: 0,
            transit: 0,
            rhwm: 0,
        }
    }
}

impl<D> Intake<D> {
    /// Enters a customer.
    ///
    /// Asks whether the figures are in range (6), whether a place is free
    /// (20), and whether the number is new (21).
    pub fn enter(
        &self,
        customers: &mut Register<'_, Customer>,
        figures: Figures,
    ) -> Result<(), Refusal>
        ensures done { Enters (room customers.old) (records customers.old) figures result (records customers.new) }
        ensures kept { Kept customers.old customers.new }
    {
        if !figures.are_in_range() {
            return Err(Refusal::OutOfRange);
        }
        customers.add(figures.record())?;
        Ok(())
    }
}
