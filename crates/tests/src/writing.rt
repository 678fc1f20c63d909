// Writing into lent bytes that are just enough, one too few, or none, and pieces put together.

#[cfg(test)]
mod tests {
    use std::fmt::Debug;
    use std::test::Fail;
    use text::pieces;
    use text::pieces::{Byte, Decimal, Hex, Piece, Text, Upper, When};
    use text::render::render;
    use text::writer::WriteFault;

    #[test]
    fn exactly_full(rt: HostRuntime) -> Result<(), Fail> {
        let mut out = [b'.'; 9];
        assert_eq!(rt;
            render(
                &mut out,
                pieces!(Text(b"ab"), Hex(0xAF), Upper(b"x_9"), Decimal(10)),
            ),
            Ok(9)
        );
        assert_eq!(rt; out, *b"abAFX_910");
        Ok(())
    }

    #[test]
    fn one_short(rt: HostRuntime) -> Result<(), Fail> {
        let mut out = [b'.'; 8];
        assert_eq!(rt;
            render(
                &mut out,
                pieces!(Text(b"ab"), Hex(0xAF), Upper(b"x_9"), Decimal(10)),
            ),
            Err(WriteFault { at: 8 })
        );
        assert_eq!(rt; out, *b"abAFX_91");
        Ok(())
    }

    #[test]
    fn room_left(rt: HostRuntime) {
        let mut out = [b'.'; 5];
        assert_eq!(rt; render(&mut out, Decimal(0)), Ok(1));
        assert_eq!(rt; out, *b"0....");
    }

    #[test]
    fn repeated_and_absent(rt: HostRuntime) {
        let mut out = [b'.'; 9];
        assert_eq!(rt;
            render(
                &mut out,
                pieces!(
                    Byte(b'<'),
                    [Hex(0x1F), Hex(0x20)].as_slice(),
                    Some(Byte(b'+')),
                    None::<Byte>,
                    When(true, Text(b"y")),
                    When(false, Text(b"n")),
                    Byte(b'>'),
                ),
            ),
            Ok(8)
        );
        assert_eq!(rt; out, *b"<1F20+y>.");
    }

    #[test]
    fn empty(rt: HostRuntime) {
        let mut out = [0u8; 0];
        assert_eq!(rt; render(&mut out, Text(b"")), Ok(0));
        assert_eq!(rt; render(&mut out, Text(b"a")), Err(WriteFault { at: 0 }));
    }
}
