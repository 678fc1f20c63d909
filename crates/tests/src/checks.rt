// The checks of rows: what a job cannot spell, and rows that break two rules at once. The boundaries of the other checks are
// rows of the archive's stored job.
use forms::row::FormRow;

/// A plain row that passes: `01 /r` with a general register and memory.
pub const PLAIN: FormRow = FormRow {
    encoding: 0,
    table: 0,
    prefix: 0,
    opcode: 1,
    bytes: 1,
    address: 0,
    operand: 0,
    length: 0,
    lkind: 0,
    flags: 0,
    group: -1,
    rm: -1,
    kinds: [27, 0, 12, 12, 12],
    count: 2,
    tag: 0,
};

#[cfg(test)]
mod tests {
    use super::PLAIN;
    use forms::description::Description;
    use forms::fault::RowFault;
    use forms::row::FormRow;

    // The number of the first check that the row fails, or 0 for none: a case is then one number.
    fn number(row: FormRow) -> u32 {
        Description::from_row(&row)
            .err()
            .map_or(0, |fault| fault.number())
    }

    fn opcode(opcode: u16, bytes: u32) -> u32 {
        number(FormRow {
            opcode,
            bytes,
            ..PLAIN
        })
    }

    #[test]
    fn opcode_lengths(rt: HostRuntime) {
        assert_eq!(rt; opcode(0, 0), 6);
        assert_eq!(rt; opcode(0, 1), 0);
        assert_eq!(rt; opcode(255, 1), 0);
        assert_eq!(rt; opcode(256, 1), 6);
        assert_eq!(rt; opcode(256, 2), 0);
        assert_eq!(rt; opcode(65535, 2), 0);
        assert_eq!(rt; opcode(0, 3), 6);
        assert_eq!(rt; opcode(0, 4294967295), 6);
    }

    #[test]
    fn wide_numbers(rt: HostRuntime) {
        assert_eq!(rt;
            number(FormRow {
                encoding: 4294967295,
                ..PLAIN
            }),
            1
        );
        assert_eq!(rt;
            number(FormRow {
                count: 4294967295,
                ..PLAIN
            }),
            3
        );
        assert_eq!(rt;
            number(FormRow {
                operand: 4294967295,
                ..PLAIN
            }),
            5
        );
        assert_eq!(rt;
            number(FormRow {
                group: 2147483647,
                ..PLAIN
            }),
            7
        );
        assert_eq!(rt;
            number(FormRow {
                rm: -2147483648,
                ..PLAIN
            }),
            7
        );
        assert_eq!(rt;
            number(FormRow {
                length: 4294967295,
                ..PLAIN
            }),
            8
        );
    }

    #[test]
    fn first_of_two(rt: HostRuntime) {
        assert_eq!(rt;
            number(FormRow {
                encoding: 5,
                tag: 17,
                ..PLAIN
            }),
            1
        );
        assert_eq!(rt;
            number(FormRow {
                encoding: 5,
                count: 6,
                ..PLAIN
            }),
            2
        );
        assert_eq!(rt;
            number(FormRow {
                count: 1,
                kinds: [27, 91, 12, 12, 12],
                ..PLAIN
            }),
            3
        );
        assert_eq!(rt;
            number(FormRow {
                kinds: [27, 91, 12, 12, 12],
                address: 8,
                ..PLAIN
            }),
            4
        );
        assert_eq!(rt;
            number(FormRow {
                address: 8,
                bytes: 3,
                ..PLAIN
            }),
            5
        );
        assert_eq!(rt;
            number(FormRow {
                bytes: 3,
                group: 8,
                ..PLAIN
            }),
            6
        );
        assert_eq!(rt;
            number(FormRow {
                group: 8,
                length: 3,
                ..PLAIN
            }),
            7
        );
        assert_eq!(rt;
            number(FormRow {
                length: 3,
                flags: 32,
                ..PLAIN
            }),
            8
        );
        assert_eq!(rt; number(FormRow { flags: 32, ..PLAIN }), 9);
    }

    #[test]
    fn faults_are_values(rt: HostRuntime) {
        assert_eq!(rt; PLAIN.check(), None);
        assert_eq!(rt;
            FormRow { bytes: 3, ..PLAIN }.check(),
            Some(RowFault::OpcodeLength)
        );
    }
}
