//! The worked book of three customers, from entering to the bills: once with
//! its grant refused, once with it accepted.
//!
//! It prints the marks after founding and after the transfers, how each call
//! ended, and at last for each customer number, mark, RHWM, Above-RHWM load
//! and the charges in C, N, S and T.
#![tactic(auto)]

ghost use Rattle.std.specs.Prelude.{◌≡◌, codes, bytes_eq, if◌then◌else◌};
ghost use Rattle.std.specs.Process.{exit_status};
ghost use Rattle.register.specs.Register.{room, records, Kept};
ghost use Rattle.worked_book.specs.Calls.{Transfers, GrantsRanged, PostsRanged, BillsOn, EntersAll, PostsAll, BillsAll};

use book::{ClosedBook, Figures, Intake, OpenBook, Posting, Refusal};
use largest::LargestRemainder;
use records::{CostLine, Customer};
use register::Register;
use std::process::ExitCode;
use std::{env, io};
use streams::{Failure, conclude};
use units::{Cents, Header, Load};

// The customers Alder, Birch and Cedar.
const FIGURES: [Figures; 3] = [
    Figures {
        number: 1,
        measured: 50,
        founding: 0,
        conservation: 0,
        retail: 60,
        large: 0,
        resources: 0,
        elected: 5,
        slice: 0,
    },
    Figures {
        number: 2,
        measured: 30,
        founding: 0,
        conservation: 0,
        retail: 20,
        large: 0,
        resources: 0,
        elected: 0,
        slice: 0,
    },
    Figures {
        number: 3,
        measured: 20,
        founding: 0,
        conservation: 0,
        retail: 40,
        large: 10,
        resources: 0,
        elected: 50,
        slice: 10,
    },
];

// The cost lines: number, what the line does, cents.
const LINES: [(u32, Posting, u64); 4] = [
    (10, Posting::Expense('C'), 1000),
    (20, Posting::Credit('C'), 120),
    (30, Posting::Expense('T'), 33),
    (40, Posting::Shift('N', 'C'), 20),
];

// Says how a call ended.
fn report(rt: &HostRuntime, what: &str, answer: Result<(), Refusal>) -> io::Result<()> {
    match answer {
        Ok(()) => println!(rt; "{what}: accepted"),
        Err(refusal) => println!(rt; "{what}: {}", refusal.number()),
    }
}

fn print_marks(rt: &HostRuntime, customers: &Register<'_, Customer>) -> io::Result<()> {
    for customer in customers.records() {
        println!(rt; "mark,{},{}", customer.number, customer.mark)?;
    }
    Ok(())
}

// Moves a load from one customer to another.
fn transfer(
    book: &OpenBook<LargestRemainder>,
    customers: &mut Register<'_, Customer>,
    giver: u32,
    receiver: u32,
    thousandths: u64,
) -> Result<(), Refusal>
    ensures done { Transfers giver receiver thousandths (records customers.old) result (records customers.new) }
    ensures kept { Kept customers.old customers.new }
{
    let parcel = book.lift(customers, giver, Load::new(thousandths)?)?;
    book.land(customers, parcel, receiver)
}

// Adds a load to a customer's mark.
fn grant(
    book: &mut OpenBook<LargestRemainder>,
    customers: &mut Register<'_, Customer>,
    number: u32,
    thousandths: u64,
) -> Result<(), Refusal>
    ensures done { GrantsRanged number thousandths (book.old, records customers.old) result (book.new, records customers.new) }
    ensures kept { Kept customers.old customers.new }
{
    book.grant(customers, number, Load::new(thousandths)?)
}

// Enters the three customers.
fn enter_all(
    intake: &Intake<LargestRemainder>,
    customers: &mut Register<'_, Customer>,
) -> Result<(), Refusal>
    ensures done { EntersAll (room customers.old) FIGURES (records customers.old) result (records customers.new) }
    ensures kept { Kept customers.old customers.new }
{
    for figures in FIGURES {
        intake.enter(customers, figures)?;
    }
    Ok(())
}

// Posts a cost line.
fn post(
    book: &mut OpenBook<LargestRemainder>,
    lines: &mut Register<'_, CostLine>,
    number: u32,
    posting: Posting,
    cents: u64,
) -> Result<(), Refusal>
    ensures done { PostsRanged (room lines.old) number posting cents (book.old, records lines.old) result (book.new, records lines.new) }
    ensures kept { Kept lines.old lines.new }
{
    book.post(lines, number, posting, Cents::new(cents)?)
}

// Posts the four cost lines.
fn post_all(
    book: &mut OpenBook<LargestRemainder>,
    lines: &mut Register<'_, CostLine>,
) -> Result<(), Refusal>
    ensures done { PostsAll (room lines.old) LINES (book.old, records lines.old) result (book.new, records lines.new) }
    ensures kept { Kept lines.old lines.new }
{
    for (number, posting, cents) in LINES {
        post(book, lines, number, posting, cents)?;
    }
    Ok(())
}

// Bills a pool.
fn bill(
    book: &ClosedBook<LargestRemainder>,
    customers: &Register<'_, Customer>,
    letter: char,
    charges: &mut [i64],
) -> Result<(), Refusal>
    ensures { BillsOn book.now (records customers.now) letter charges.old result charges.new }
{
    book.bill(customers, letter, &mut [0; 3], &mut [0; 3], charges)
}

// Bills the four pools.
fn bill_all(
    book: &ClosedBook<LargestRemainder>,
    customers: &Register<'_, Customer>,
    charges: &mut [i64],
) -> Result<(), Refusal>
    ensures { BillsAll book.now (records customers.now) (codes "CNST") charges.old result charges.new }
{
    for letter in ['C', 'N', 'S', 'T'] {
        bill(book, customers, letter, charges)?;
    }
    Ok(())
}

// Prints each customer with its charges, a row in one piece.
fn print_all(
    rt: &HostRuntime,
    customers: &Register<'_, Customer>,
    charges: &[i64; 12],
) -> io::Result<()> {
    for (i, customer) in customers.records().iter().take(3).enumerate() {
        println!(rt;
            "{},{},{},{},{},{},{},{}",
            customer.number,
            customer.mark,
            customer.rhwm,
            customer.above_rhwm_load(),
            charges[i],
            charges[3 + i],
            charges[6 + i],
            charges[9 + i]
        )?;
    }
    Ok(())
}

// Moves marks, grants, posts, closes and bills.
fn settle(
    rt: &HostRuntime,
    mut book: OpenBook<LargestRemainder>,
    customers: &mut Register<'_, Customer>,
    lines: &mut Register<'_, CostLine>,
    granted: u64,
) -> io::Result<()> {
    print_marks(rt, customers)?;
    report(rt, "transfer", transfer(&book, customers, 2, 1, 31))?;
    report(rt, "transfer", transfer(&book, customers, 1, 7, 5))?;
    report(rt, "transfer", transfer(&book, customers, 1, 2, 5))?;
    print_marks(rt, customers)?;
    report(rt, "transfer", transfer(&book, customers, 2, 1, 5))?;
    report(rt, "grant", grant(&mut book, customers, 1, granted))?;
    report(rt, "posting", post_all(&mut book, lines))?;
    match book.close(customers, &mut [0; 3], &mut [0; 3]) {
        Ok(closed) => {
            let mut charges = [0; 12];
            report(rt, "billing", bill_all(&closed, customers, &mut charges))?;
            print_all(rt, customers, &charges)
        }
        Err((_, refusal)) => report(rt, "closing", Err(refusal)),
    }
}

// Takes the book from entering to the bills, with a grant to Alder.
fn run(rt: &HostRuntime, header: Header, granted: u64) -> io::Result<()> {
    let mut customer_places = [Customer::BLANK; 3];
    let mut customers = Register::new(&mut customer_places);
    let mut line_places = [CostLine::BLANK; 4];
    let mut lines = Register::new(&mut line_places);
    let intake = Intake::new(LargestRemainder, header);
    report(rt, "entering", enter_all(&intake, &mut customers))?;
    match runs::found(intake, &mut customers, &mut [0; 3], &mut [0; 3]) {
        Ok(book) => settle(rt, book, &mut customers, &mut lines, granted),
        Err((_, refusal)) => report(rt, "founding", Err(refusal)),
    }
}

const NAME: &str = "worked-book";

const USAGE: &str = "takes the worked book of three customers from entering to the bills

It reads nothing. It prints the marks after founding and after the transfers,
how each call ended, and each customer's number, mark, RHWM, Above-RHWM load
and charges in C, N, S and T; once with a grant that is refused, and once with
one that is accepted.";

// Both runs: with a grant above the most, and with one that is accepted.
fn run_both(rt: &HostRuntime, header: Header) -> io::Result<()> {
    run(rt, header, 50_001)?;
    run(rt, header, 9)
}

// Says how the program is used.
fn help(rt: &HostRuntime, word: &str) -> ExitCode
    ensures { exit_status result ≡ (if bytes_eq word.now (codes "--help") then 0 else 1) }
{
    let _ = eprintln!(rt; "usage: {NAME}\n\n{NAME} {USAGE}");
    if word == "--help" {
        ExitCode::SUCCESS
    } else {
        ExitCode::FAILURE
    }
}

fn main(rt: HostRuntime) -> ExitCode {
    let word = match env::args(&rt) {
        Ok(mut words) => words.nth(1),
        Err(error) => {
            let _ = eprintln!(rt; "{NAME}: the words after its name cannot be read: {error}");
            return ExitCode::FAILURE;
        }
    };
    if let Some(word) = word {
        return help(&rt, word.as_str());
    }
    let Ok(header) = Header::new(101, 97) else {
        let _ = eprintln!(rt; "{NAME}: the header is out of range");
        return ExitCode::FAILURE;
    };
    let answer = match run_both(&rt, header) {
        Ok(()) => Ok(ExitCode::SUCCESS),
        Err(error) => Err(Failure::Writing(error, ExitCode::SUCCESS)),
    };
    conclude(NAME, answer, &mut rt.stderr())
}
