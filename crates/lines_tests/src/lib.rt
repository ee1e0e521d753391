//! Tests of lines on examples.
#![tactic(auto)]

#[cfg(test)]
mod tests {
    use book::{Figures, Posting};
    use lines::{Fault, Line};
    use rows::Field;
    use std::process::Abort;
    use std::test::Fail;

    // The bytes of a page, and what each holds before a line is written there.
    const ROOM: usize = 100;

    const BLANK: u8 = b'#';

    fn header(founding_total: u64, capability: u64) -> Line<'static> {
        Line::Header {
            founding_total,
            capability,
        }
    }

    // A customer by its name, and its figures in the order of their fields.
    fn customer<'a>(name: &'a [u8], figures: [u64; 9]) -> Line<'a> {
        let [
            number,
            measured,
            founding,
            conservation,
            retail,
            large,
            resources,
            elected,
            slice,
        ] = figures;
        Line::Customer {
            name,
            figures: Figures {
                number,
                measured,
                founding,
                conservation,
                retail,
                large,
                resources,
                elected,
                slice,
            },
        }
    }

    fn cost(number: u32, posting: Posting, cents: u64) -> Line<'static> {
        Line::Cost {
            number,
            posting,
            cents,
        }
    }

    fn grant(customer: u32, load: u64) -> Line<'static> {
        Line::Grant { customer, load }
    }

    fn transfer(giver: u32, receiver: u32, load: u64) -> Line<'static> {
        Line::Transfer {
            giver,
            receiver,
            load,
        }
    }

    // A line's letter, name, pools and figures, the last in the order of their fields.
    type Contents<'a> = (char, &'a [u8], (char, char), [u64; 9]);

    fn pools(posting: Posting) -> (char, (char, char)) {
        match posting {
            Posting::Expense(pool) => ('E', (pool, ' ')),
            Posting::Credit(pool) => ('R', (pool, ' ')),
            Posting::Shift(first, second) => ('A', (first, second)),
        }
    }

    fn three(first: u64, second: u64, third: u64) -> [u64; 9] {
        [first, second, third, 0, 0, 0, 0, 0, 0]
    }

    fn nine(f: Figures) -> [u64; 9] {
        [
            f.number,
            f.measured,
            f.founding,
            f.conservation,
            f.retail,
            f.large,
            f.resources,
            f.elected,
            f.slice,
        ]
    }

    fn contents<'a>(line: &Line<'a>) -> Contents<'a> {
        let none = (' ', ' ');
        match *line {
            Line::Header {
                founding_total,
                capability,
            } => ('H', b"", none, three(founding_total, capability, 0)),
            Line::Customer { name, figures } => ('C', name, none, nine(figures)),
            Line::Cost {
                number,
                posting,
                cents,
            } => {
                let (letter, pools) = pools(posting);
                (letter, b"", pools, three(u64::from(number), cents, 0))
            }
            Line::Grant { customer, load } => {
                ('G', b"", none, three(u64::from(customer), load, 0))
            }
            Line::Transfer {
                giver,
                receiver,
                load,
            } => (
                'T',
                b"",
                none,
                three(u64::from(giver), u64::from(receiver), load),
            ),
        }
    }

    // A page with some bytes at its front.
    fn page(bytes: &[u8]) -> [u8; ROOM] {
        let mut page = [BLANK; ROOM];
        for (place, byte) in page.iter_mut().zip(bytes) {
            *place = *byte;
        }
        page
    }

    // An answer with its fault by field and number.
    fn told<T>(answer: Result<T, Fault>) -> Result<T, (usize, u8)> {
        answer.map_err(|fault| (fault.field, fault.refusal.number()))
    }

    // Writes a line into the first bytes of a page.
    fn write(line: &Line<'_>, room: usize) -> (Result<usize, (usize, u8)>, [u8; ROOM]) {
        let mut page = [BLANK; ROOM];
        let answer = lines::write(line, &mut page[0..room.min(ROOM)]);
        (told(answer), page)
    }

    // A line that is read as it should be, and written as the same bytes where
    // there is room for them.
    fn trips(rt: &impl Abort, bytes: &[u8], line: &Line<'_>) -> Result<(), Fail> {
        let read = told(lines::read(bytes))?;
        assert_eq!(rt; contents(&read), contents(line));
        let n = bytes.len();
        for room in 0..=ROOM {
            let after = if room < n {
                (Err((0, 9)), page(b""))
            } else {
                (Ok(n), page(bytes))
            };
            assert_eq!(rt; write(line, room), after);
        }
        Ok(())
    }

    // The field and the number of a line's fault: 0 and 0 where it is read, and
    // written again as it was, and 0 and 99 where it is written otherwise.
    fn fault(line: &[u8]) -> (usize, u8) {
        match told(lines::read(line)) {
            Ok(read) if write(&read, ROOM) == (Ok(line.len()), page(line)) => (0, 0),
            Ok(_) => (0, 99),
            Err(fault) => fault,
        }
    }

    // Lines, each with the field and the number of its fault.
    fn faults(rt: &impl Abort, cases: &[(&[u8], usize, u8)]) -> Result<(), Fail> {
        for (line, field, number) in cases {
            let told = fault(line);
            assert_eq!(rt; (*line, told), (*line, (*field, *number)));
        }
        Ok(())
    }

    // A line with a field between two parts of it, and its fault.
    fn faults_with(
        rt: &impl Abort,
        before: &[u8],
        field: Field<'_>,
        after: &[u8],
        told: (usize, u8),
    ) -> Result<(), Fail> {
        let mut line = [BLANK; ROOM];
        match rows::write(&[Field::Text(before), field], after, &mut line) {
            Some(n) if n <= ROOM => faults(rt, &[(&line[0..n], told.0, told.1)]),
            _ => Err(Fail::new("no room for the line")),
        }
    }

    // A line that is not written for the fault of a field, whatever the room.
    fn unwritten(rt: &impl Abort, line: &Line<'_>, field: usize, number: u8) {
        for room in [0, 5, ROOM] {
            assert_eq!(rt; write(line, room), (Err((field, number)), page(b"")));
        }
    }

    // Every figure: the line before it and after it, its field, its lowest, which
    // is 0 or 1, and its highest.
    const FIGURES: [(&[u8], &[u8], usize, u64, u64); 22] = [
        (b"H", b",97", 2, 1, 20_000_000),
        (b"H,101", b"", 3, 0, 20_000_000),
        (b"C", b",Alder,50,0,0,60,0,0,5,0", 2, 1, 9_999),
        (b"C,1,Alder", b",0,0,60,0,0,5,0", 4, 0, 2_000_000),
        (b"C,1,Alder,50", b",0,60,0,0,5,0", 5, 0, 2_000_000),
        (b"C,1,Alder,50,0", b",60,0,0,5,0", 6, 0, 500_000),
        (b"C,1,Alder,50,0,0", b",0,0,5,0", 7, 0, 2_000_000),
        (b"C,1,Alder,50,0,0,60", b",0,5,0", 8, 0, 2_000_000),
        (b"C,1,Alder,50,0,0,60,0", b",5,0", 9, 0, 2_000_000),
        (b"C,1,Alder,50,0,0,60,0,0", b",0", 10, 0, 30_000),
        (b"C,1,Alder,50,0,0,60,0,0,5", b"", 11, 0, 2_000_000),
        (b"E", b",C,1000", 2, 1, 9_999),
        (b"E,10,C", b"", 4, 1, 100_000_000_000),
        (b"R", b",C,120", 2, 1, 9_999),
        (b"R,20,C", b"", 4, 1, 100_000_000_000),
        (b"A", b",N,C,20", 2, 1, 9_999),
        (b"A,40,N,C", b"", 5, 1, 100_000_000_000),
        (b"G", b",10", 2, 1, 9_999),
        (b"G,3", b"", 3, 0, 20_050_000),
        (b"T", b",2,5", 2, 1, 9_999),
        (b"T,1", b",5", 3, 1, 9_999),
        (b"T,1,2", b"", 4, 0, 20_050_000),
    ];

    // A field of each kind, by the line before it and after it, the bytes that
    // may stand there alone, its field, and the number of the others.
    const BYTES: [(&[u8], &[u8], &[u8], usize, u8); 4] = [
        (b"G,3", b"", b"0123456789", 3, 5),
        (
            b"C,1",
            b",50,0,0,60,0,0,5,0",
            b" !\"#$%&'()*+-./0123456789:;<=>?@ABCDEFGHIJKLMNOPQRSTUVWXYZ[\\]^_`abcdefghijklmnopqrstuvwxyz{|}~",
            3,
            7,
        ),
        (b"E,10", b",1000", b"CNST", 3, 8),
        (b"A,40,N", b",20", b"CST", 4, 8),
    ];

    // Figures as they may be typed, each with its number in every field.
    const TYPED: [(&[u8], u8); 22] = [
        (b"1", 0),
        (b"9", 0),
        (b"1000000000000000000", 6),
        (b"9999999999999999999", 6),
        (b"10000000000000000000", 6),
        (b"18446744073709551615", 6),
        (b"18446744073709551616", 6),
        (b"18446744073709551617", 6),
        (b"100000000000000000000", 6),
        (
            b"184467440737095516170000000000000000000000000000000000000001",
            6,
        ),
        (
            b"18446744073709551617000000000000000000000000000000000000000x",
            5,
        ),
        (
            b"000000000000000000000000000000000000000000000000000000000001",
            5,
        ),
        (b"", 5),
        (b"00", 5),
        (b"050", 5),
        (b"+5", 5),
        (b"-5", 5),
        (b" 5", 5),
        (b"5 ", 5),
        (b"5.0", 5),
        (b"5e1", 5),
        (b"\"5\"", 5),
    ];

    #[test]
    fn lines_of_customers_make_the_round_trip(rt: HostRuntime) -> Result<(), Fail> {
        let cases: &[(&[u8], &[u8], [u64; 9])] = &[
            (
                b"C,1,Alder,50,0,0,60,0,0,5,0",
                b"Alder",
                [1, 50, 0, 0, 60, 0, 0, 5, 0],
            ),
            (
                b"C,2,Birch,30,0,0,20,0,0,0,0",
                b"Birch",
                [2, 30, 0, 0, 20, 0, 0, 0, 0],
            ),
            (
                b"C,3,Cedar,20,0,0,40,10,0,50,10",
                b"Cedar",
                [3, 20, 0, 0, 40, 10, 0, 50, 10],
            ),
            (
                b"C,9999,~,1,2,3,4,5,6,7,8",
                b"~",
                [9_999, 1, 2, 3, 4, 5, 6, 7, 8],
            ),
            (
                b"C,9999,PUD No. 1 of Alder Count,2000000,2000000,500000,2000000,2000000,2000000,30000,2000000",
                b"PUD No. 1 of Alder Count",
                [
                    9_999, 2_000_000, 2_000_000, 500_000, 2_000_000, 2_000_000, 2_000_000, 30_000,
                    2_000_000,
                ],
            ),
        ];
        for (bytes, name, figures) in cases {
            trips(&rt, bytes, &customer(name, *figures))?;
        }
        Ok(())
    }

    #[test]
    fn lines_of_costs_make_the_round_trip(rt: HostRuntime) -> Result<(), Fail> {
        let cases: &[(&[u8], u32, Posting, u64)] = &[
            (b"E,10,C,1000", 10, Posting::Expense('C'), 1000),
            (b"R,20,C,120", 20, Posting::Credit('C'), 120),
            (b"E,30,T,33", 30, Posting::Expense('T'), 33),
            (b"A,40,N,C,20", 40, Posting::Shift('N', 'C'), 20),
        ];
        for (bytes, number, posting, cents) in cases {
            trips(&rt, bytes, &cost(*number, *posting, *cents))?;
        }
        Ok(())
    }

    #[test]
    fn lines_of_loads_make_the_round_trip(rt: HostRuntime) -> Result<(), Fail> {
        trips(&rt, b"H,101,97", &header(101, 97))?;
        trips(&rt, b"G,3,10", &grant(3, 10))?;
        trips(&rt, b"T,1,2,5", &transfer(1, 2, 5))
    }

    #[test]
    fn figures_pass_in_their_ranges_only(rt: HostRuntime) -> Result<(), Fail> {
        for (before, after, field, low, high) in &FIGURES {
            let above = high.saturating_add(1);
            let zero = if *low == 0 { (0, 0) } else { (*field, 6) };
            for (figure, told) in [
                (0, zero),
                (*low, (0, 0)),
                (*high, (0, 0)),
                (above, (*field, 6)),
            ] {
                faults_with(&rt, before, Field::Figure(figure), after, told)?;
            }
        }
        Ok(())
    }

    #[test]
    fn figures_are_typed_in_digits(rt: HostRuntime) -> Result<(), Fail> {
        for (before, after, field, _, _) in &FIGURES {
            for (typed, number) in &TYPED {
                let field = if *number == 0 { 0 } else { *field };
                faults_with(&rt, before, Field::Text(typed), after, (field, *number))?;
            }
        }
        Ok(())
    }

    #[test]
    fn the_letter_is_asked_first(rt: HostRuntime) -> Result<(), Fail> {
        faults(
            &rt,
            &[
                (b"", 0, 3),
                (b",", 0, 3),
                (b",101,97", 0, 3),
                (b"X", 0, 3),
                (b"X,x,0", 0, 3),
                (b"h,101,97", 0, 3),
                (b"HH,101,97", 0, 3),
                (b" H,101,97", 0, 3),
                (b"H ,101,97", 0, 3),
                (b"H;101;97", 0, 3),
                (b"H\r", 0, 3),
                (b"\r", 0, 3),
            ],
        )
    }

    #[test]
    fn the_count_is_asked_before_the_fields(rt: HostRuntime) -> Result<(), Fail> {
        faults(
            &rt,
            &[
                (b"H", 0, 4),
                (b"H,", 0, 4),
                (b"H,x", 0, 4),
                (b"H,101", 0, 4),
                (b"H,101,97,", 0, 4),
                (b"H,0,x,1", 0, 4),
                (b"H,20,000,000", 0, 4),
                (b"C,0,,x", 0, 4),
                (b"C,1,Alder,50,0,0,60,0,0,5", 0, 4),
                (b"C,1,Alder,50,0,0,60,0,0,5,0,0", 0, 4),
                (b"C,1,Alder, Ash,50,0,0,60,0,0,5,0", 0, 4),
                (b"E,10,X", 0, 4),
                (b"E,10,C,1000,0", 0, 4),
                (b"R,0,C", 0, 4),
                (b"R,20,C,120,0", 0, 4),
                (b"A,40,N,N", 0, 4),
                (b"A,40,N,C,20,0", 0, 4),
                (b"G,x", 0, 4),
                (b"G,3,10,0", 0, 4),
                (b"T,1,2", 0, 4),
                (b"T,1,2,5,0", 0, 4),
            ],
        )
    }

    #[test]
    fn the_first_field_that_fails_is_told(rt: HostRuntime) -> Result<(), Fail> {
        faults(
            &rt,
            &[
                (b"H,,", 2, 5),
                (b"H,0,x", 2, 6),
                (b"H,101,x", 3, 5),
                (b"C,0,,x,0,0,0,0,0,0,0", 2, 6),
                (b"C,1,,x,0,0,0,0,0,0,0", 3, 7),
                (b"C,1,Alder,x,0,0,0,0,0,0,y", 4, 5),
                (b"C,1,Alder,0,0,0,0,0,0,30001,y", 10, 6),
                (b"E,0,X,0", 2, 6),
                (b"E,10,X,x", 3, 8),
                (b"R,20,C,0", 4, 6),
                (b"A,x,N,N,x", 2, 5),
                (b"A,40,X,X,x", 3, 8),
                (b"A,40,N,N,x", 4, 8),
                (b"A,40,N,C,x", 5, 5),
                (b"G,0,x", 2, 6),
                (b"T,1,0,x", 3, 6),
                (b"T,1,2,x", 4, 5),
            ],
        )
    }

    #[test]
    fn common_slips_are_told(rt: HostRuntime) -> Result<(), Fail> {
        faults(
            &rt,
            &[
                (b"Header,101,97", 0, 3),
                (b"\xef\xbb\xbfH,101,97", 0, 3),
                (b"G,3,10,,", 0, 4),
                (b"E,10,C,1,000", 0, 4),
                (b"C,2,Birch, Inc.,30,0,0,20,0,0,0,0", 0, 4),
                (b"C,2,Birch Inc.,30,0,0,20,0,0,0,0", 0, 0),
                (b"H,,97", 2, 5),
                (b"C,1,Alder,050,0,0,60,0,0,5,0", 4, 5),
                (b"R,20,C,1.20", 4, 5),
                (b"R,20,C,-120", 4, 5),
                (b"H,0,97", 2, 6),
                (b"C,3,Cedar,20,0,0,40,10,0,30001,10", 10, 6),
                (b"C,3,Cedar,20,0,0,40,10,0,30000,10", 0, 0),
                (b"C,1,Public Utility of Alder Co,50,0,0,60,0,0,5,0", 3, 7),
                (b"C,1,Alder PUD,50,0,0,60,0,0,5,0", 0, 0),
                (b"C,2,Bj\xc3\xb6rk,30,0,0,20,0,0,0,0", 3, 7),
                (b"C,2,Bjork,30,0,0,20,0,0,0,0", 0, 0),
            ],
        )
    }

    #[test]
    fn a_carriage_return_is_no_part_of_a_line(rt: HostRuntime) -> Result<(), Fail> {
        faults(
            &rt,
            &[
                (b"H,101,97\r", 3, 5),
                (b"C,1,Alder,50,0,0,60,0,0,5,0\r", 11, 5),
                (b"C,1,Alder\r,50,0,0,60,0,0,5,0", 3, 7),
                (b"E,10,C,1000\r", 4, 5),
                (b"E,10,C\r,1000", 3, 8),
                (b"R,20,C,120\r", 4, 5),
                (b"A,40,N,C,20\r", 5, 5),
                (b"G,3,10\r", 3, 5),
                (b"T,1,2,5\r", 4, 5),
            ],
        )
    }

    #[test]
    fn names_have_1_to_24_bytes(rt: HostRuntime) -> Result<(), Fail> {
        faults(
            &rt,
            &[
                (b"C,1,,50,0,0,60,0,0,5,0", 3, 7),
                (b"C,1,A,50,0,0,60,0,0,5,0", 0, 0),
                (b"C,1, ,50,0,0,60,0,0,5,0", 0, 0),
                (b"C,1,PUD No. 1 of Alder Count,50,0,0,60,0,0,5,0", 0, 0),
                (b"C,1,PUD No. 1 of Alder County,50,0,0,60,0,0,5,0", 3, 7),
                (b"C,1,Alder\x1f,50,0,0,60,0,0,5,0", 3, 7),
                (b"C,1, Alder ,50,0,0,60,0,0,5,0", 0, 0),
                (b"C,1,~Alder~,50,0,0,60,0,0,5,0", 0, 0),
                (b"C,1,\x7fAlder,50,0,0,60,0,0,5,0", 3, 7),
                (b"C,1,Al\xffder,50,0,0,60,0,0,5,0", 3, 7),
                (b"C,1,Alder, Ash,50,0,0,60,0,0,5,0", 0, 4),
                (b"C,1,\"Alder, Ash\",50,0,0,60,0,0,5,0", 0, 4),
            ],
        )
    }

    #[test]
    fn a_comma_stands_in_no_name(rt: HostRuntime) {
        assert!(rt; lines::is_name(b"Alder Ash"));
        assert!(rt; !lines::is_name(b"Alder, Ash"));
        assert!(rt; !lines::is_name(b""));
    }

    #[test]
    fn pools_are_one_known_letter(rt: HostRuntime) -> Result<(), Fail> {
        faults(
            &rt,
            &[
                (b"E,10,,1000", 3, 8),
                (b"E,10,X,1000", 3, 8),
                (b"E,10,c,1000", 3, 8),
                (b"E,10,CN,1000", 3, 8),
                (b"R,20,,120", 3, 8),
                (b"R,20,C ,120", 3, 8),
                (b"R,20,\xc5\x83,120", 3, 8),
                (b"A,40,,C,20", 3, 8),
                (b"A,40,X,C,20", 3, 8),
                (b"A,40, N,C,20", 3, 8),
                (b"A,40,N,,20", 4, 8),
                (b"A,40,N,X,20", 4, 8),
                (b"A,40,N,c,20", 4, 8),
                (b"A,40,N,CN,20", 4, 8),
                (b"A,40,N,\xc5\x83,20", 4, 8),
            ],
        )
    }

    #[test]
    fn a_shift_is_between_two_pools(rt: HostRuntime) -> Result<(), Fail> {
        faults(
            &rt,
            &[
                (b"A,40,C,C,20", 4, 8),
                (b"A,40,C,N,20", 0, 0),
                (b"A,40,C,S,20", 0, 0),
                (b"A,40,C,T,20", 0, 0),
                (b"A,40,N,C,20", 0, 0),
                (b"A,40,N,N,20", 4, 8),
                (b"A,40,N,S,20", 0, 0),
                (b"A,40,N,T,20", 0, 0),
                (b"A,40,S,C,20", 0, 0),
                (b"A,40,S,N,20", 0, 0),
                (b"A,40,S,S,20", 4, 8),
                (b"A,40,S,T,20", 0, 0),
                (b"A,40,T,C,20", 0, 0),
                (b"A,40,T,N,20", 0, 0),
                (b"A,40,T,S,20", 0, 0),
                (b"A,40,T,T,20", 4, 8),
            ],
        )
    }

    #[test]
    fn each_byte_of_a_field_is_known_or_refused(rt: HostRuntime) -> Result<(), Fail> {
        for (before, after, known, field, number) in &BYTES {
            for byte in 0..=u8::MAX {
                let told = if byte == b',' {
                    (0, 4)
                } else if known.contains(&byte) {
                    (0, 0)
                } else {
                    (*field, *number)
                };
                faults_with(&rt, before, Field::Text(&[byte]), after, told)?;
            }
        }
        Ok(())
    }

    #[test]
    fn loads_are_asked_before_they_are_written(rt: HostRuntime) {
        unwritten(&rt, &header(0, 20_000_001), 2, 6);
        unwritten(&rt, &header(20_000_000, u64::MAX), 3, 6);
        unwritten(&rt, &grant(0, 10), 2, 6);
        unwritten(&rt, &grant(3, 20_050_001), 3, 6);
        unwritten(&rt, &transfer(u32::MAX, 0, 5), 2, 6);
        unwritten(&rt, &transfer(1, 0, u64::MAX), 3, 6);
        unwritten(&rt, &transfer(1, 1, 20_050_001), 4, 6);
    }

    #[test]
    fn customers_are_asked_before_they_are_written(rt: HostRuntime) {
        let cases: &[(&[u8], [u64; 9], usize, u8)] = &[
            (b"", [0; 9], 2, 6),
            (b"Alder", [10_000; 9], 2, 6),
            (b"", [1, u64::MAX, 0, 0, 0, 0, 0, 0, 0], 3, 7),
            (b"Alder, Ash", [1, u64::MAX, 0, 0, 0, 0, 0, 0, 0], 3, 7),
            (b"PUD No. 1 of Alder County", [1; 9], 3, 7),
            (b"Alder\n", [1; 9], 3, 7),
            (b"Alder", [1, u64::MAX, 0, 0, 0, 0, 0, 0, u64::MAX], 4, 6),
            (b"Alder", [9_999, 0, 0, 500_001, 0, 0, 0, 0, 0], 6, 6),
            (b"Alder", [9_999, 0, 0, 0, 0, 0, 0, 30_001, 0], 10, 6),
            (
                b"Alder",
                [9_999, 0, 0, 0, 0, 0, 0, 30_000, 2_000_001],
                11,
                6,
            ),
        ];
        for (name, figures, field, number) in cases {
            unwritten(&rt, &customer(name, *figures), *field, *number);
        }
    }

    // U+0143 ends in the byte of C.
    #[test]
    fn costs_are_asked_before_they_are_written(rt: HostRuntime) {
        let cases: &[(u32, Posting, u64, usize, u8)] = &[
            (0, Posting::Expense('X'), 0, 2, 6),
            (10, Posting::Expense('X'), 0, 3, 8),
            (10, Posting::Expense('\u{143}'), 1000, 3, 8),
            (9_999, Posting::Expense('C'), 0, 4, 6),
            (u32::MAX, Posting::Credit('C'), 120, 2, 6),
            (20, Posting::Credit('c'), 120, 3, 8),
            (20, Posting::Credit('C'), 100_000_000_001, 4, 6),
            (10_000, Posting::Shift('N', 'N'), 20, 2, 6),
            (40, Posting::Shift('X', 'X'), 20, 3, 8),
            (40, Posting::Shift('N', 'N'), 0, 4, 8),
            (40, Posting::Shift('N', 'X'), 0, 4, 8),
            (40, Posting::Shift('N', '\u{143}'), 20, 4, 8),
            (40, Posting::Shift('N', 'C'), 0, 5, 6),
            (40, Posting::Shift('N', 'C'), u64::MAX, 5, 6),
        ];
        for (number, posting, cents, field, refusal) in cases {
            unwritten(&rt, &cost(*number, *posting, *cents), *field, *refusal);
        }
    }
}
