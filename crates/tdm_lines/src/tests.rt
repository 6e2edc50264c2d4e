ghost use Rattle.std.specs.Prelude.{◌≤◌, ◌^◌, [], length};

use crate::{
    FirstNumbers, FoundLine, Grammar, LineCursor, Reading, ReadingFault, Refusal, RefusalKind,
    Scan, ScanStep, TokenEnd, TokenFault, clean, decimal, line_after, refused, token_lines,
};
use std::alloc::{AllocError, Global};
use std::process::Abort;
use std::test::Fail;

/// A line that is wanted: its number, its fault and its numbers.
#[derive(Clone, Copy)]
struct Wanted(u32, Option<TokenFault>, &'static [u64]);

#[test]
fn prints_numbers_without_leading_zeros(rt: HostRuntime) {
    for (n, want) in [
        (0u128, "0"),
        (10, "10"),
        (18_446_744_073_709_551_616, "18446744073709551616"),
        (u128::MAX, "340282366920938463463374607431768211455"),
    ] {
        assert_eq!(rt; decimal(n).as_bytes(), want.as_bytes());
    }
}

#[test]
fn counts_the_line_after_a_text(rt: HostRuntime) {
    assert_eq!(rt; line_after(b""), 1);
    assert_eq!(rt; line_after(b"a\n"), 2);
    assert_eq!(rt; line_after(b"\n\r\n\n1"), 4);
}

fn assert_lines(
    rt: &impl Abort,
    alloc: Global,
    text: &[u8],
    max: u64,
    wanted: &[Wanted],
) -> Result<(), Fail>
    requires { length text.now ≤ 2 ^ 30 }
{
    let found = token_lines(alloc, text, max)?;
    assert_eq!(rt; found.len(), wanted.len());
    for (line, want) in found.iter().zip(wanted) {
        assert_eq!(rt; line.number(), want.0);
        assert!(rt; line.fault() == want.1, "line {}", want.0);
        assert_eq!(rt; line.numbers(), want.2);
    }
    Ok(())
}

#[test]
fn finds_lines_with_their_numbers_or_faults(rt: HostRuntime) -> Result<(), Fail> {
    let bad = Some(TokenFault::BadNumber);
    let large = Some(TokenFault::NumberTooLarge);
    assert_lines(
        &rt,
        rt.alloc(),
        b"1 02\r\n \nx",
        4_294_967_295,
        &[Wanted(1, None, &[1, 2]), Wanted(3, bad, &[])],
    )?;
    assert_lines(&rt, rt.alloc(), b"", 5, &[])?;
    assert_lines(
        &rt,
        rt.alloc(),
        b"\t5\n\n6\n9 -1\n1\x0b\n",
        5,
        &[
            Wanted(1, None, &[5]),
            Wanted(3, large, &[]),
            Wanted(4, bad, &[]),
            Wanted(5, bad, &[]),
        ],
    )?;
    assert_lines(
        &rt,
        rt.alloc(),
        b"18446744073709551615 0\n18446744073709551616\n99999999999999999999999999999999999999999",
        u64::MAX,
        &[
            Wanted(1, None, &[u64::MAX, 0]),
            Wanted(2, large, &[]),
            Wanted(3, large, &[]),
        ],
    )
}

#[test]
fn reads_one_line_at_a_time_into_one_buffer(rt: HostRuntime) -> Result<(), Fail> {
    let mut cursor = LineCursor::new(b"1 2\n\n3\n", 9);
    let mut numbers = Vec::new(rt.alloc());
    let first = cursor.next_line(&mut numbers)?;
    assert_eq!(rt;
        first,
        Some(FoundLine {
            number: 1,
            fault: None
        })
    );
    assert_eq!(rt; numbers.as_slice(), [1, 2].as_slice());
    let second = cursor.next_line(&mut numbers)?;
    assert_eq!(rt;
        second,
        Some(FoundLine {
            number: 3,
            fault: None
        })
    );
    assert_eq!(rt; numbers.as_slice(), [3].as_slice());
    assert_eq!(rt; cursor.next_line(&mut numbers)?, None);
    assert_eq!(rt; numbers.len(), 0);
    Ok(())
}

#[test]
fn tells_what_each_byte_ends(rt: HostRuntime) {
    let mut scan = Scan::new(9);
    let nothing = ScanStep {
        token: None,
        line_end: false,
    };
    let large = ScanStep {
        token: Some(TokenEnd::Large),
        line_end: false,
    };
    let bad = ScanStep {
        token: Some(TokenEnd::Bad),
        line_end: true,
    };
    for (byte, wanted) in [
        (b'1', nothing),
        (b'0', nothing),
        (b' ', large),
        (b'x', nothing),
        (b'\n', bad),
        (b'7', nothing),
    ] {
        assert!(rt; scan.line() < 9);
        assert!(rt; scan.push(byte) == wanted, "byte {byte}");
    }
    assert!(rt; scan.finish() == Some(TokenEnd::Number(7)));
    assert!(rt; scan.finish() == None);
    assert_eq!(rt; scan.line(), 2);
    assert_eq!(rt; scan.push_token(b"12 3", 0), 2);
    assert!(rt; scan.finish() == Some(TokenEnd::Large));
}

/// The numbers of a text, and how many of its lines are at fault.
#[derive(Drop)]
struct Tally {
    numbers: Vec<u64>,
    faults: u32,
}

impl Grammar for Tally {
    ghost largest = { 9 };

    ghost sizes = { λ _. [] };

    ghost fine = { λ _. Unit {0} };

    ghost reads = { λ _ _. Unit {0} };

    ghost holds = { λ _ _. Unit {0} };

    fn number(&mut self, _place: u32, number: u64) -> Result<(), AllocError> {
        self.numbers.push(number)?;
        Ok(())
    }

    fn line(
        &mut self,
        _line: u32,
        fault: Option<TokenFault>,
        _count: u32,
    ) -> Result<(), AllocError> {
        if fault.is_some() {
            self.faults = self.faults.saturating_add(1);
        }
        Ok(())
    }
}

impl RefusalKind for TokenFault {
    ghost of_token = { λ fault. fault };

    fn of_token(fault: TokenFault) -> TokenFault {
        fault
    }
}

/// Feeds a text of at most 18 bytes in pieces of this length, with an empty piece before each.
fn read_in_pieces(
    rt: &impl Abort,
    alloc: Global,
    text: &[u8],
    length: usize,
) -> Result<(Tally, u32), ReadingFault<TokenFault>> {
    let numbers = Vec::new(alloc);
    let mut reading = Reading::new(Tally { numbers, faults: 0 }, 9);
    assert!(rt; length > 0);
    for piece in text.chunks(length) {
        assert!(rt; reading.fed() < 100 && piece.len() < 100);
        reading.feed(&[])?;
        reading.feed(piece)?;
    }
    assert!(rt; reading.fed() < 100);
    reading.finish(18, TokenFault::NumberTooLarge)
}

#[test]
fn cuts_of_a_text_do_not_matter(rt: HostRuntime) -> Result<(), Fail> {
    for length in [1usize, 2, 3, 18] {
        let read = read_in_pieces(&rt, rt.alloc(), b"1 02\r\n \n10 x 3\n 7", length)?;
        assert_eq!(rt; read.0.numbers.as_slice(), [1, 2, 7].as_slice());
        assert_eq!(rt; read.0.faults, 1);
        assert_eq!(rt; read.1, 4);
    }
    Ok(())
}

#[test]
fn keeps_the_first_numbers_of_a_line(rt: HostRuntime) -> Result<(), Fail> {
    let mut first = FirstNumbers::new(rt.alloc(), 2, 9);
    first.push(3)?;
    first.push(12)?;
    first.push(5)?;
    assert_eq!(rt; first.numbers(), [3, 9].as_slice());
    first.clear();
    assert_eq!(rt; first.numbers().len(), 0);
    Ok(())
}

#[test]
fn refuses_a_text_that_is_too_long_and_a_line_at_fault(rt: HostRuntime) {
    let answer = read_in_pieces(&rt, rt.alloc(), b"1 2 3 4 5 6 7 8 9 1", 7).err();
    assert!(rt; answer == Some(refused(TokenFault::NumberTooLarge, 0)));
    let (kind, line) = (TokenFault::BadNumber, 3);
    assert!(rt; clean(Some(kind), line) == Err(Refusal { kind, line }));
    assert!(rt; clean::<TokenFault>(None, line) == Ok(()));
}
