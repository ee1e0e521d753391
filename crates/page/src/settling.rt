//! A book is founded, closed and billed, on sheets of 512 places.
ghost use Rattle.std.specs.Prelude.{◌≡◌, [], ◌∷◌};
ghost use Rattle.register.specs.Register.{records};
ghost use Rattle.page.specs.Pages.{FoundsOn, ClosesOn, BillsOn, BillsAll, Settles};

use book::{ClosedBook, Intake, OpenBook, Refusal};
use divider::Divider;
use records::Customer;
use register::Register;

/// Founds a book.
pub(crate) fn found<D: Divider>(
    intake: Intake<D>,
    customers: &mut Register<'_, Customer>,
) -> Result<OpenBook<D>, (Intake<D>, Refusal)>
    ensures { FoundsOn D.Divider.meaning intake (records customers.old) result (records customers.new) }
{
    runs::found(intake, customers, &mut [0; 512], &mut [0; 512])
}

/// Closes a book.
pub(crate) fn close<D: Divider>(
    book: OpenBook<D>,
    customers: &mut Register<'_, Customer>,
) -> Result<ClosedBook<D>, (OpenBook<D>, Refusal)>
    ensures { ClosesOn D.Divider.meaning book (records customers.old) result (records customers.new) }
{
    book.close(customers, &mut [0; 512], &mut [0; 512])
}

// Bills a pool.
fn bill<D: Divider>(
    book: &ClosedBook<D>,
    customers: &Register<'_, Customer>,
    letter: char,
    charges: &mut [i64],
) -> Result<(), Refusal>
    ensures { BillsOn D.Divider.meaning book.now (records customers.now) letter charges.old result charges.new }
{
    book.bill(customers, letter, &mut [0; 512], &mut [0; 512], charges)
}

/// Bills the pools C, N, S and T.
pub(crate) fn bill_all<D: Divider>(
    book: &ClosedBook<D>,
    customers: &Register<'_, Customer>,
    charges: &mut [i64],
) -> Result<(), Refusal>
    ensures { BillsAll D.Divider.meaning book.now (records customers.now) (67 ∷ 78 ∷ 83 ∷ 84 ∷ []) charges.old result charges.new }
{
    for letter in ['C', 'N', 'S', 'T'] {
        bill(book, customers, letter, charges)?;
    }
    Ok(())
}

/// Closes a book, and bills the pools C, N, S and T.
pub(crate) fn settle<D: Divider + Drop>(
    book: OpenBook<D>,
    customers: &mut Register<'_, Customer>,
    charges: &mut [i64],
) -> Result<ClosedBook<D>, Refusal>
    ensures { Settles D.Divider.meaning book (records customers.old) charges.old result (records customers.new) charges.new }
{
    let closed = close(book, customers).map_err(|(_, refusal)| refusal)?;
    bill_all(&closed, customers, charges)?;
    Ok(closed)
}
