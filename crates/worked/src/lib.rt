//! The worked cases: examples by hand that the rules must give.
//!
//! The table of them stands in specs/, and is proved of the same definitions
//! that the contracts of the dividers and of the book cite; the tests run the
//! code on the divisions.
#![tactic(auto)]

ghost use Rattle.worked.specs.Cases.{AllHold};

use divider::{Divider, Refusal};
use sharing::Rule;

/// Every worked division, transfer and charge comes out as the table says.
pub fn cases_hold()
    ensures { AllHold }
{}

#[cfg(test)]
mod tests {
    use super::*;
    use sharing::answer;
    use std::alloc::{AllocError, Global};
    use std::process::Abort;
    use std::test::Fail;

    // Divides by a rule, and compares the shares.
    fn shares(
        rt: &impl Abort,
        rule: Rule,
        total: u64,
        weights: &[u64],
        expected: &[u64],
    ) -> Result<(), Fail> {
        let mut sheet = [0; 3];
        rule.divide(total, weights, &mut sheet)?;
        assert!(rt; &sheet[0..3] == expected);
        Ok(())
    }

    #[test]
    fn divisions(rt: HostRuntime) -> Result<(), Fail> {
        shares(&rt, Rule::Largest, 101, &[50, 30, 20], &[51, 30, 20])?;
        shares(&rt, Rule::Running, 101, &[50, 30, 20], &[50, 30, 21])?;
        shares(&rt, Rule::Largest, 97, &[51, 30, 20], &[49, 29, 19])?;
        shares(&rt, Rule::Largest, 20, &[49, 20, 9], &[13, 5, 2])
    }

    #[test]
    fn no_weight(rt: HostRuntime) {
        let mut sheet = [7, 7];
        assert!(rt; Rule::Largest.divide(101, &[0, 0], &mut sheet) == Err(Refusal::NoWeight));
        assert!(rt; sheet[0] == 7 && sheet[1] == 7);
    }

    // The request of these words.
    fn request(heap: Global, words: &[&str]) -> Result<Vec<String>, AllocError> {
        let mut request = Vec::new(heap);
        for word in words {
            request.push(String::from_str(heap, word)?)?;
        }
        Ok(request)
    }

    // The number of the fault that these words meet.
    fn refused(heap: Global, words: &[&str]) -> Result<Option<u8>, AllocError> {
        let fault = answer(heap, &request(heap, words)?).err();
        Ok(fault.and_then(|fault| fault.number()))
    }

    #[test]
    fn table_by_running_sums(rt: HostRuntime) -> Result<(), Fail> {
        let heap = rt.alloc();
        let words = request(heap, &["running", "101", "50", "30", "20"])?;
        let Ok(text) = answer(heap, &words) else {
            return Err(Fail::new("refused"));
        };
        assert!(rt;
            text.as_str() == "1,50,50,50,50\n2,30,30,30,30\n3,20,20,20,21\nsum,100,100,100,101\n"
        );
        Ok(())
    }

    #[test]
    fn requests_refused(rt: HostRuntime) -> Result<(), Fail> {
        let heap = rt.alloc();
        assert_eq!(rt; refused(heap, &["biggest", "1", "1"])?, Some(3));
        assert_eq!(rt; refused(heap, &["largest"])?, Some(4));
        assert_eq!(rt; refused(heap, &["largest", "1", "01"])?, Some(5));
        assert_eq!(rt;
            refused(heap, &["largest", "18446744073709551616", "1"])?,
            Some(6)
        );
        assert_eq!(rt; refused(heap, &["largest", "1"])?, Some(41));
        assert_eq!(rt;
            refused(heap, &["largest", "9223372036854775808", "1"])?,
            Some(42)
        );
        Ok(())
    }
}
