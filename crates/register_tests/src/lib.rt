//! Tests of registers on examples.
#![tactic(auto)]

#[cfg(test)]
mod tests {
    use register::{Keyed, Refusal, Register};
    use std::process::Abort;

    #[derive(Clone, Copy, PartialEq, Eq, Debug)]
    struct Line {
        number: u32,
        mark: u32,
    }

    impl Keyed for Line {
        ghost key = { λ l. l.number };

        fn number(&self) -> u32 {
            self.number
        }
    }

    // What a place holds before a register writes it.
    const BLANK: Line = Line {
        number: 7,
        mark: 99,
    };

    fn numbered(number: u32) -> Line {
        Line { number, mark: 0 }
    }

    // Adds records in falling order until the register is full, which it is at `room` records.
    fn fill(rt: &impl Abort, memory: &mut [Line], room: u32) {
        let mut register = Register::new(memory);
        assert!(rt; register.is_empty());
        for number in (1..=room).rev() {
            assert!(rt; !register.is_full());
            assert_eq!(rt; register.add(numbered(number)), Ok(()));
        }
        assert!(rt; register.is_full());
        assert_eq!(rt; register.add(numbered(0)), Err(Refusal::Full));
        assert_eq!(rt; register.len(), room as usize);
        for (row, number) in register.records().iter().zip(1..=room) {
            assert_eq!(rt; *row, numbered(number));
        }
        assert!(rt; memory.iter().skip(room as usize).all(|row| *row == BLANK));
    }

    #[test]
    fn fills_to_the_end(rt: HostRuntime) {
        fill(&rt, &mut [BLANK; 0], 0);
        fill(&rt, &mut [BLANK; 1], 1);
        fill(&rt, &mut [BLANK; 511], 511);
        fill(&rt, &mut [BLANK; 512], 512);
        fill(&rt, &mut [BLANK; 513], 512);
        fill(&rt, &mut [BLANK; 600], 512);
    }

    #[test]
    fn refusals_change_nothing(rt: HostRuntime) {
        let mut memory = [BLANK; 3];
        let mut register = Register::new(&mut memory);
        assert_eq!(rt; register.add(numbered(5)), Ok(()));
        assert_eq!(rt; register.add(numbered(3)), Ok(()));
        let other = Line { number: 5, mark: 1 };
        assert_eq!(rt; register.add(other), Err(Refusal::Taken));
        assert_eq!(rt; register.get(4), Err(Refusal::Missing));
        assert_eq!(rt; register.remove(4), Err(Refusal::Missing));
        assert_eq!(rt; register.replace(numbered(4)), Err(Refusal::Missing));
        assert_eq!(rt; register.replace_at(0, other), Err(Refusal::Missing));
        assert_eq!(rt; register.replace_at(2, BLANK), Err(Refusal::Missing));
        assert_eq!(rt; register.len(), 2);
        assert_eq!(rt; memory, [numbered(3), numbered(5), BLANK]);
    }

    #[test]
    fn a_removal_leaves_the_freed_place(rt: HostRuntime) {
        let mut memory = [BLANK; 4];
        let mut register = Register::new(&mut memory);
        assert_eq!(rt; register.add(numbered(2)), Ok(()));
        assert_eq!(rt; register.add(numbered(3)), Ok(()));
        assert_eq!(rt; register.add(numbered(1)), Ok(()));
        assert_eq!(rt; register.remove(1), Ok(numbered(1)));
        assert_eq!(rt; register.len(), 2);
        assert_eq!(rt; memory, [numbered(2), numbered(3), numbered(3), BLANK]);
    }

    #[test]
    fn a_record_is_read_and_replaced(rt: HostRuntime) {
        let mut memory = [BLANK; 1];
        let mut register = Register::new(&mut memory);
        assert_eq!(rt; register.add(numbered(9)), Ok(()));
        let marked = Line { number: 9, mark: 5 };
        assert_eq!(rt; register.replace(marked), Ok(numbered(9)));
        assert_eq!(rt; register.replace_at(0, numbered(9)), Ok(marked));
        assert_eq!(rt; register.get(9), Ok(numbered(9)));
    }

    #[test]
    fn refusals_have_numbers(rt: HostRuntime) {
        assert_eq!(rt; Refusal::Full.number(), 20);
        assert_eq!(rt; Refusal::Taken.number(), 21);
        assert_eq!(rt; Refusal::Missing.number(), 25);
    }
}
