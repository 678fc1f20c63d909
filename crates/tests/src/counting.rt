// Generic code over any naming source, on what the traits promise alone, and sources that stand on one another.
ghost use Rattle.std.specs.Prelude.{◌≡◌};
ghost use Rattle.sources.specs.Entries.{entry_in};
ghost use Rattle.sources.specs.Front.{front_forms, front_names};
ghost use Rattle.sources.specs.Shelves.{shelf_forms, shelf_names};
ghost use Rattle.sources.specs.Sources.{cut, chained};
ghost use Rattle.tests.specs.Entries.{is_like, alike};

use forms::entry::Entry;
use forms::row::{FormRow, NamingRow};
use sources::entries::Entries;
use sources::front::FrontMatter;
use sources::joined::Joined;
use sources::shelf::Shelf;
use sources::source::{NamingSource, Source};
use sources::window::Window;

fn is_like(entry: &Entry, opcode: u16, letters: usize) -> bool
    ensures { result ≡ is_like opcode letters (entry_in entry.now) }
{
    entry.description.form().opcode == opcode && entry.naming.mnemonic().len() == letters
}

/// How many entries have the opcode and a mnemonic of so many letters. The two are plain arguments: each is compared with its
/// own part of an entry, and nothing else goes with the pair.
pub fn count_like<S: NamingSource>(source: &S, opcode: u16, letters: usize) -> u32
    ensures { result ≡ alike opcode letters (S.Source.list source.now) (S.NamingSource.names source.now) }
{
    Entries::of(source)
        .filter(|entry| is_like(entry, opcode, letters))
        .count() as u32
}

/// How many such entries there are in a window over the front matter and then a shelf.
pub fn count_in_archive(
    rows: &[FormRow],
    namings: &[NamingRow],
    from: u32,
    to: u32,
    opcode: u16,
    letters: usize,
) -> u32
    ensures { result ≡ alike opcode letters (cut (chained front_forms (shelf_forms rows.now namings.now)) from to) (cut (chained front_names (shelf_names rows.now namings.now)) from to) }
{
    let shelf = Shelf::new(rows, namings);
    let archive = Joined {
        first: FrontMatter,
        second: &shelf,
    };
    let part = Window {
        source: &archive,
        from,
        to,
    };
    count_like(&part, opcode, letters)
}

#[cfg(test)]
mod tests {
    use super::*;
    use crate::checks::PLAIN;
    use forms::fault::RowFault;
    use forms::naming::Naming;
    use forms::row::{MemoryRow, NO_OPERAND};
    use sources::fault::SourceFault;
    use sources::joined_all::JoinedAll;
    use sources::shelf::first_refused;
    use std::process::Abort;
    use std::test::Fail;

    // A legacy form with an opcode of one byte and no operands.
    fn plain(table: u32, opcode: u16) -> FormRow {
        FormRow {
            table,
            opcode,
            kinds: [NO_OPERAND; 5],
            count: 0,
            ..PLAIN
        }
    }

    fn called(mnemonic: &[u8]) -> NamingRow<'_> {
        NamingRow {
            mnemonic,
            option: 0,
            memory: MemoryRow { label: 0, size: 0 },
            broadcast: MemoryRow { label: 0, size: 0 },
        }
    }

    // Five forms of which no two have the same opcode, or as many letters.
    fn five_rows() -> [FormRow; 5] {
        [
            plain(0, 0xf4),
            plain(0, 0xf1),
            plain(1, 0xa2),
            plain(1, 0x09),
            plain(1, 0x05),
        ]
    }

    fn five_names() -> [NamingRow<'static>; 5] {
        [
            called(b"Hlt"),
            called(b"Int1"),
            called(b"Cpuid"),
            called(b"Wbinvd"),
            called(b"Syscall"),
        ]
    }

    // The number of the refusal, or 0 for none: a case is then a row of numbers.
    fn number(answer: Result<(), SourceFault>) -> u32 {
        answer.err().map_or(0, |fault| fault.number())
    }

    // The opcode of an entry, and how many letters its mnemonic has.
    fn shown_of(entry: &Entry) -> (u16, usize) {
        (
            entry.description.form().opcode,
            entry.naming.mnemonic().len(),
        )
    }

    fn shown_at<S: NamingSource>(source: &S, n: u32) -> Result<(u16, usize), SourceFault> {
        Ok(shown_of(&source.entry(n)?))
    }

    // At this number the source has an entry with this opcode and a mnemonic of so many letters.
    fn stands<S: NamingSource>(rt: &impl Abort, source: &S, n: u32, opcode: u16, letters: usize) {
        assert_eq!(rt; shown_at(source, n), Ok((opcode, letters)));
    }

    // The source has so many entries, and refuses the one after them with 14.
    fn ends<S: NamingSource>(rt: &impl Abort, source: &S, count: u32) {
        assert_eq!(rt; (source.count(), source.naming_count()), (count, count));
        assert_eq!(rt; source.fetch(count), Err(SourceFault::NoEntry));
        assert_eq!(rt; source.fetch_naming(count), Err(SourceFault::NoEntry));
        assert_eq!(rt; shown_at(source, count), Err(SourceFault::NoEntry));
        assert_eq!(rt; SourceFault::NoEntry.number(), 14);
    }

    #[test]
    fn a_shelf_has_as_many_entries_as_pairs(rt: HostRuntime) {
        let rows = five_rows();
        let names = five_names();
        let empty = Shelf::new(&rows[0..0], &names[0..0]);
        assert_eq!(rt; number(empty.check()), 0);
        ends(&rt, &empty, 0);
        let more_rows = Shelf::new(&rows, &names[0..2]);
        assert_eq!(rt; number(more_rows.check()), 0);
        stands(&rt, &more_rows, 1, 0xf1, 4);
        ends(&rt, &more_rows, 2);
        ends(&rt, &Shelf::new(&rows[0..3], &names), 3);
    }

    #[test]
    fn a_shelf_is_refused_at_its_first_bad_pair(rt: HostRuntime) {
        let mut rows = five_rows();
        let mut names = five_names();
        rows[3].count = 6;
        assert_eq!(rt;
            first_refused(&rows, &names),
            Some((3, RowFault::OperandCount))
        );
        names[2].mnemonic = b"";
        names[3].mnemonic = b"";
        assert_eq!(rt; first_refused(&rows, &names), Some((2, RowFault::Mnemonic)));
        let bad = Shelf::new(&rows, &names);
        assert_eq!(rt; number(bad.check()), 10);
        ends(&rt, &bad, 0);
        ends(&rt, &Shelf::new(&rows, &names[0..2]), 2);
    }

    #[test]
    fn a_window_ends_before_its_end(rt: HostRuntime) {
        let rows = five_rows();
        let names = five_names();
        let shelf = Shelf::new(&rows, &names);
        // from, to, the check's number, the count
        let cases = [
            (0, 5, 0, 5),
            (1, 3, 0, 2),
            (2, 2, 0, 0),
            (5, 5, 0, 0),
            (3, 2, 12, 0),
            (0, 6, 12, 0),
            (6, 6, 12, 0),
        ];
        for (from, to, refusal, count) in cases {
            let window = Window {
                source: &shelf,
                from,
                to,
            };
            assert_eq!(rt; number(window.check()), refusal);
            ends(&rt, &window, count);
        }
    }

    #[test]
    fn a_seam_is_crossed_once(rt: HostRuntime) {
        let rows = five_rows();
        let names = five_names();
        let first = Shelf::new(&rows[0..2], &names[0..2]);
        let second = Shelf::new(&rows[2..5], &names[2..5]);
        let both = Joined {
            first: &first,
            second: &second,
        };
        let seam = Window {
            source: &both,
            from: 1,
            to: 3,
        };
        ends(&rt, &both, 5);
        stands(&rt, &seam, 0, 0xf1, 4);
        stands(&rt, &seam, 1, 0xa2, 5);
        ends(&rt, &seam, 2);
        assert_eq!(rt;
            (count_like(&seam, 0xf1, 4), count_like(&seam, 0xa2, 5)),
            (1, 1)
        );
        assert_eq!(rt;
            (count_like(&both, 0xf1, 4), count_like(&both, 0xa2, 5)),
            (1, 1)
        );
    }

    #[test]
    fn several_sources_are_one_after_another(rt: HostRuntime) {
        let rows = five_rows();
        let names = five_names();
        let shelves = [
            Shelf::new(&rows[0..2], &names[0..2]),
            Shelf::new(&rows[0..0], &names[0..0]),
            Shelf::new(&rows[2..5], &names[2..5]),
        ];
        let all = JoinedAll { sources: &shelves };
        assert_eq!(rt; all.check(), Ok(()));
        stands(&rt, &all, 0, 0xf4, 3);
        stands(&rt, &all, 1, 0xf1, 4);
        stands(&rt, &all, 2, 0xa2, 5);
        stands(&rt, &all, 4, 0x05, 7);
        ends(&rt, &all, 5);
        assert_eq!(rt;
            (count_like(&all, 0xf1, 4), count_like(&all, 0xa2, 5)),
            (1, 1)
        );
        let none = JoinedAll {
            sources: &shelves[0..0],
        };
        assert_eq!(rt; none.check(), Ok(()));
        ends(&rt, &none, 0);
    }

    #[test]
    fn entries_come_in_their_order(rt: HostRuntime) {
        let rows = five_rows();
        let names = five_names();
        let shelf = Shelf::new(&rows, &names);
        let part = Window {
            source: &shelf,
            from: 1,
            to: 4,
        };
        let mut entries = Entries::of(&part);
        for shown in [(0xf1, 4), (0xa2, 5), (0x09, 6)] {
            assert_eq!(rt; entries.next().map(|entry| shown_of(&entry)), Some(shown));
        }
        assert_eq!(rt; entries.next(), None);
        for entry in Entries::of(&part) {
            assert!(rt; shown_of(&entry) != (0xf4, 3));
        }
    }

    fn letters(naming: Naming) -> usize {
        naming.mnemonic().len()
    }

    fn opcode_of(entry: Entry) -> u16 {
        entry.description.form().opcode
    }

    #[test]
    fn names_and_entries_are_copied(rt: HostRuntime) {
        let Ok(entry) = FrontMatter.entry(5) else {
            panic!(rt);
        };
        let naming = entry.naming;
        assert_eq!(rt; (letters(naming), letters(naming)), (10, 10));
        assert_eq!(rt; (opcode_of(entry), opcode_of(entry)), (0, 0));
    }

    #[test]
    fn a_refusal_says_why(rt: HostRuntime) -> Result<(), Fail> {
        let heap = rt.alloc();
        let faults = [
            (SourceFault::Row(RowFault::Mvex), "2: the encoding is MVEX"),
            (
                SourceFault::WindowBounds,
                "12: the window starts after its end or ends above the count",
            ),
            (
                SourceFault::TooManyEntries,
                "13: there are more entries than a source may have",
            ),
            (
                SourceFault::NoEntry,
                "14: there is no entry with this number",
            ),
        ];
        for (fault, text) in faults {
            let number = fault.number();
            let said = format!(in heap; "{number}: {fault}")?;
            assert_eq!(rt; said.as_str(), text);
        }
        Ok(())
    }

    #[test]
    fn an_archive_begins_with_the_front_matter(rt: HostRuntime) {
        let rows = five_rows();
        let names = five_names();
        stands(&rt, &FrontMatter, 5, 0, 10);
        ends(&rt, &FrontMatter, 6);
        // from, to, opcode, letters, how many
        let cases = [
            (0, 11, 0, 11, 2),
            (5, 7, 0, 10, 1),
            (5, 7, 0xf4, 3, 1),
            (5, 6, 0xf4, 3, 0),
            (6, 12, 0xf4, 3, 0),
        ];
        for (from, to, opcode, letters, count) in cases {
            assert_eq!(rt;
                count_in_archive(&rows, &names, from, to, opcode, letters),
                count
            );
        }
    }

    #[test]
    fn a_refused_layer_has_no_entries(rt: HostRuntime) {
        let rows = five_rows();
        let names = five_names();
        let shelf = Shelf::new(&rows, &names);
        let refused = Window {
            source: &shelf,
            from: 4,
            to: 6,
        };
        let both = Joined {
            first: &refused,
            second: &shelf,
        };
        assert_eq!(rt; (number(refused.check()), number(both.check())), (12, 0));
        stands(&rt, &both, 0, 0xf4, 3);
        ends(&rt, &both, 5);
    }

    #[test]
    fn no_source_has_more_than_65536(rt: HostRuntime) -> Result<(), Fail> {
        let mut rows = vec![in rt.alloc(); plain(0, 0xf4); 65537]?;
        let names = vec![in rt.alloc(); called(b"Hlt"); 65537]?;
        assert!(rt; rows.len() == 65537 && names.len() == 65537);
        let full = Shelf::new(&rows, &names[0..65536]);
        assert_eq!(rt; number(full.check()), 0);
        stands(&rt, &full, 65535, 0xf4, 3);
        ends(&rt, &full, 65536);
        let over = Shelf::new(&rows, &names);
        assert_eq!(rt; number(over.check()), 13);
        ends(&rt, &over, 0);
        let one = Shelf::new(&rows[0..1], &names);
        let joined = Joined {
            first: &full,
            second: &one,
        };
        assert_eq!(rt; number(joined.check()), 13);
        ends(&rt, &joined, 0);
        let most = Joined {
            first: Window {
                source: &full,
                from: 1,
                to: 65536,
            },
            second: &one,
        };
        assert_eq!(rt; number(most.check()), 0);
        ends(&rt, &most, 65536);
        let both = [full, one];
        let over_all = JoinedAll { sources: &both };
        assert_eq!(rt; number(over_all.check()), 13);
        ends(&rt, &over_all, 0);
        rows[65536].tag = 17;
        assert_eq!(rt; number(Shelf::new(&rows, &names).check()), 1);
        Ok(())
    }
}
