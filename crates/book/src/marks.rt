//! Grants of mark, and transfers: lift, land, give back.
ghost use Rattle.std.specs.Prelude.{◌≡◌, ◌≢◌, ◌+◌, ◌^◌, ◌<◌, ◌≤◌, if◌then◌else◌, MatchResult, nat_le, Some, Ok, Err};
ghost use Rattle.register.specs.Records.{lookup};
ghost use Rattle.register.specs.Register.{records, Kept};
ghost use Rattle.book.specs.Customers.{key, customer};
ghost use Rattle.book.specs.declared.refusal.Refusal.TheVariants.{NotOnTheWay, Spoiled};
ghost use Rattle.book.specs.Marks.{most_mark, remarked, Grants, Lifts, Lands, Returns};

use crate::parcel::Parcel;
use crate::refusal::Refusal;
use crate::stages::OpenBook;
use records::Customer;
use register::Register;
use units::Load;

/// The most load that the grants of a book add up to.
const MOST_GRANTED: u64 = 50_000;

// A mark with a load more, where that is a load.
fn raised(mark: u32, more: u64) -> Result<u32, Refusal>
    requires { more < 2 ^ 32 }
    ensures { MatchResult result (λ sum. (mark + more ≤ most_mark) × (sum ≡ mark + more)) (λ refusal. (most_mark < mark + more) × (refusal ≡ Spoiled)) }
{
    let load = Load::new(u64::from(mark) + more).map_err(|_| Refusal::Spoiled)?;
    Ok(load.thousandths() as u32)
}

impl<D> OpenBook<D> {
    /// Adds a load to a customer's mark.
    ///
    /// Asks whether the customer stands (25), whether the load is above 0
    /// (26), whether the grants of this book with it stay within 50,000 (27),
    /// and whether the mark stays within 20,050,000 (24).
    pub fn grant(
        &mut self,
        customers: &mut Register<'_, Customer>,
        number: u32,
        load: Load,
    ) -> Result<(), Refusal>
        ensures done { Grants self.old (records customers.old) number load.thousandths result self.new (records customers.new) }
        ensures kept { Kept customers.old customers.new }
    {
        let customer = customers.get(number)?;
        let load = load.thousandths();
        if load == 0 {
            return Err(Refusal::NoLoad);
        }
        if load > MOST_GRANTED || self.granted > MOST_GRANTED - load {
            return Err(Refusal::OverGranted);
        }
        let mark = raised(customer.mark, load)?;
        let _ = customers.replace(Customer { mark, ..customer });
        self.granted += load;
        Ok(())
    }
}

impl<D> OpenBook<D> {
    /// Takes a load off the giver's mark and notes it as on the way.
    ///
    /// Asks whether the giver stands (25), whether the load is above 0 (26),
    /// whether the giver has nothing on the way (28), and whether the load is
    /// at most its mark (29). The parcel has to be landed or given back.
    pub fn lift(
        &self,
        customers: &mut Register<'_, Customer>,
        number: u32,
        load: Load,
    ) -> Result<Parcel, Refusal>
        ensures done { Lifts (records customers.old) number load.thousandths result (records customers.new) }
        ensures kept { Kept customers.old customers.new }
    {
        let customer = customers.get(number)?;
        let load = load.thousandths();
        if load == 0 {
            return Err(Refusal::NoLoad);
        }
        if customer.transit != 0 {
            return Err(Refusal::AlreadyLifted);
        }
        if load > u64::from(customer.mark) {
            return Err(Refusal::OverMark);
        }
        let transit = load as u32;
        let mark = customer.mark - transit;
        let _ = customers.replace(Customer {
            mark,
            transit,
            ..customer
        });
        Ok(Parcel {
            giver: number,
            spent: false,
        })
    }
}

// The customer of a number, where a load is on the way from it.
fn giver_of(customers: &Register<'_, Customer>, number: u32) -> Result<Customer, Refusal>
    ensures { MatchResult result (λ c. (lookup key number (records customers.now) ≡ Some c) × (c.transit ≢ 0)) (λ e. ((customer (records customers.now) number).transit ≡ 0) × (e ≡ NotOnTheWay)) }
{
    let giver = customers.get(number).map_err(|_| Refusal::NotOnTheWay)?;
    if giver.transit == 0 {
        return Err(Refusal::NotOnTheWay);
    }
    Ok(giver)
}

// Puts the load on the way back on the giver's mark; where there is no room, nothing changes.
fn put_back(customers: &mut Register<'_, Customer>, giver: Customer) -> Result<(), Refusal>
    ensures answer { result ≡ (if nat_le (giver.mark + giver.transit) most_mark then Ok tt else Err Spoiled) }
    ensures after { records customers.new ≡ (if nat_le (giver.mark + giver.transit) most_mark then remarked (records customers.old) giver (giver.mark + giver.transit) 0 else records customers.old) }
    ensures kept { Kept customers.old customers.new }
{
    let mark = raised(giver.mark, u64::from(giver.transit))?;
    let _ = customers.replace(Customer {
        mark,
        transit: 0,
        ..giver
    });
    Ok(())
}

impl<D> OpenBook<D> {
    /// Adds the giver's load on the way to the receiver's mark, and ends the parcel.
    ///
    /// Asks whether the parcel's giver has a load on the way in this register
    /// (30, and nothing changes), whether the receiver stands (31), and
    /// whether it is another than the giver (32). After 31 and 32 the load is
    /// on the giver's mark again. Where the mark that the load goes to would
    /// pass 20,050,000, the answer is 24, also in place of 31 and 32, and
    /// nothing changes.
    pub fn land(
        &self,
        customers: &mut Register<'_, Customer>,
        parcel: Parcel,
        receiver: u32,
    ) -> Result<(), Refusal>
        ensures done { Lands (records customers.old) parcel receiver result (records customers.new) }
        ensures kept { Kept customers.old customers.new }
    {
        let giver = parcel.open();
        let from = giver_of(customers, giver)?;
        // No `?`, since the load goes home first.
        let Ok(to) = customers.get(receiver) else {
            put_back(customers, from)?;
            return Err(Refusal::NoReceiver);
        };
        if receiver == giver {
            put_back(customers, from)?;
            return Err(Refusal::SameCustomer);
        }
        let mark = raised(to.mark, u64::from(from.transit))?;
        let _ = customers.replace(Customer { transit: 0, ..from });
        let _ = customers.replace(Customer { mark, ..to });
        Ok(())
    }

    /// Puts the load back on the giver's mark, and ends the parcel.
    ///
    /// Asks whether the parcel's giver has a load on the way in this register
    /// (30), and whether its mark stays within 20,050,000 (24); on either
    /// nothing changes.
    pub fn give_back(
        &self,
        customers: &mut Register<'_, Customer>,
        parcel: Parcel,
    ) -> Result<(), Refusal>
        ensures done { Returns (records customers.old) parcel result (records customers.new) }
        ensures kept { Kept customers.old customers.new }
    {
        let giver = giver_of(customers, parcel.open())?;
        put_back(customers, giver)
    }
}
