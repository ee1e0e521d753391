//! Tests of pages on examples: the worked figures, and each fault by its row.
#![tactic(auto)]

#[cfg(test)]
mod tests {
    use largest::LargestRemainder;
    use page::bill_page;
    use printing::{ROOM, print_page};
    use std::process::Abort;

    // The customers Alder, Birch and Cedar, and their costs.
    const WORKED: &[u8] =
        b"H,101,97\nC,1,Alder,50,0,0,60,0,0,5,0\nC,2,Birch,30,0,0,20,0,0,0,0\nC,3,Cedar,20,0,0,40,10,0,50,10\nE,10,C,1000\nR,20,C,120\nE,30,T,33\nA,40,N,C,20\n";

    const LISTING: &[u8] =
        b"1,Alder,51,49,11,479,13,0,10\n2,Birch,30,29,0,195,5,0,0\n3,Cedar,20,19,11,186,2,0,23\n0,SUM,101,97,22,860,20,0,33\n";

    // Some bytes are printed for a page, and the buffer keeps what it held past them.
    fn prints(rt: &impl Abort, page: &[u8], bytes: &[u8], refused: bool) {
        let mut buffer = [7; ROOM];
        let printed = print_page(LargestRemainder, page, &mut buffer);
        assert_eq!(rt; printed.fault.is_some(), refused);
        assert_eq!(rt; printed.length, bytes.len());
        assert!(rt; buffer.starts_with(bytes));
        assert!(rt; buffer.iter().skip(printed.length).all(|byte| *byte == 7));
    }

    // A page is refused with this row.
    fn refused(rt: &impl Abort, page: &[u8], row: &[u8]) {
        prints(rt, page, row, true);
    }

    #[test]
    fn bills_the_worked_page(rt: HostRuntime) {
        match bill_page(LargestRemainder, WORKED) {
            Ok(billed) => {
                assert_eq!(rt; billed.standing, 3);
                assert_eq!(rt; billed.customers[0].mark, 51);
                assert_eq!(rt; billed.customers[1].rhwm, 29);
                assert_eq!(rt; billed.customers[2].mark, 20);
                assert_eq!(rt; billed.charges[0], 479);
                assert_eq!(rt; billed.charges[4], 5);
                assert_eq!(rt; billed.charges[11], 23);
                assert_eq!(rt; billed.charges[12], 0);
            }
            Err(_) => assert!(rt; false),
        }
    }

    #[test]
    fn lists_the_worked_page(rt: HostRuntime) {
        prints(&rt, WORKED, LISTING, false);
    }

    // The rows stand in the order of the page, and not in that of the numbers.
    #[test]
    fn lists_in_the_order_of_the_page(rt: HostRuntime) {
        prints(
            &rt,
            b"H,100,10\nC,9,Nine,50,0,0,6,0,0,5,0\nC,4,Four,50,0,0,4,0,0,0,0\nE,1,C,90\n",
            b"9,Nine,50,5,1,50,0,0,0\n4,Four,50,5,0,40,0,0,0\n0,SUM,100,10,1,90,0,0,0\n",
            false,
        );
    }

    #[test]
    fn refuses_pages(rt: HostRuntime) {
        refused(&rt, b"", b"F,page,0,0,2\n");
        refused(&rt, b"H,101,97", b"F,page,0,0,2\n");
        refused(&rt, b"\n", b"F,line,1,0,3\n");
        refused(&rt, b"E,1,C,5\nH,101,97\n", b"F,page,1,1,10\n");
        refused(&rt, b"H,101,97\nH,101,97\n", b"F,page,2,1,10\n");
        refused(&rt, b"H,101\n", b"F,line,1,0,4\n");
        refused(&rt, b"H,101,97\n", b"F,book,1,0,23\n");
    }

    #[test]
    fn refuses_lines(rt: HostRuntime) {
        refused(
            &rt,
            b"H,101,97\nC,1,Alder,050,0,0,60,0,0,5,0\n",
            b"F,line,2,4,5\n",
        );
        refused(
            &rt,
            b"H,101,97\nC,1,Alder,50,0,0,60,0,0,30001,0\n",
            b"F,line,2,10,6\n",
        );
        refused(
            &rt,
            b"H,101,97\nC,1,,50,0,0,60,0,0,5,0\n",
            b"F,line,2,3,7\n",
        );
        refused(
            &rt,
            b"H,101,97\nC,1,Alder,50,0,0,60,0,0,5,0\nA,4,N,N,20\n",
            b"F,line,3,4,8\n",
        );
    }

    #[test]
    fn refuses_what_the_book_refuses(rt: HostRuntime) {
        refused(
            &rt,
            b"H,9,9\nC,1,A,5,0,0,6,0,0,5,0\nC,1,B,5,0,0,6,0,0,5,0\n",
            b"F,book,3,0,21\n",
        );
        refused(
            &rt,
            b"H,9,9\nC,1,A,5,0,0,6,0,0,5,0\nG,2,5\nE,1,C,5\n",
            b"F,book,3,0,25\n",
        );
        refused(
            &rt,
            b"H,9,9\nC,1,A,5,0,0,6,0,0,5,0\nG,1,0\n",
            b"F,book,3,0,26\n",
        );
        refused(
            &rt,
            b"H,9,9\nC,1,A,5,0,0,6,0,0,5,0\nT,1,2,10\n",
            b"F,book,3,0,29\n",
        );
        refused(
            &rt,
            b"H,9,9\nC,1,A,5,0,0,6,0,0,5,0\nT,1,2,9\n",
            b"F,book,3,0,31\n",
        );
        refused(
            &rt,
            b"H,9,9\nC,1,A,5,0,0,6,0,0,5,0\nE,1,S,5\nE,2,C,5\n",
            b"F,book,4,0,37\n",
        );
    }

    #[test]
    fn refuses_late_customers(rt: HostRuntime) {
        refused(
            &rt,
            b"H,9,9\nC,1,A,5,0,0,6,0,0,5,0\nE,1,C,5\nC,2,B,5,0,0,6,0,0,5,0\n",
            b"F,page,4,1,11\n",
        );
    }
}
