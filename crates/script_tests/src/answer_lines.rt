//! The lines of answers, where the disks are named `sda` and `sdb`.
use byte_streams::{Failed, MemSink, Sink};
use line_answers::{Answer, DiskNames, OpRefusal};
use line_table::Answers;
use lvm_report::{answer_lines, write_answers};
use std::alloc::{AllocError, Global};
use std::test::Fail;

fn names(alloc: Global) -> Result<DiskNames, AllocError> {
    let mut names = Vec::new(alloc);
    for name in ["sda", "sdb"] {
        names.push(String::from_str(alloc, name)?)?;
    }
    Ok(DiskNames::from_vec(names))
}

// A line that was refused, one without an answer, one that was done, and one that a disk failed.
fn answers(alloc: Global) -> Result<Answers, AllocError> {
    let mut answers = Vec::new(alloc);
    answers.push((3, Some(Answer::Refused(OpRefusal::NoSpace(7, 2)))))?;
    answers.push((5, None))?;
    answers.push((8, Some(Answer::Fine)))?;
    answers.push((18_446_744_073_709_551_615, Some(Answer::PvFailed(1))))?;
    Ok(answers)
}

const LINES: &[u8] =
    b"3: refused NoSpace 7 2\n5: not begun\n8: ok\n18446744073709551615: pv failed sdb\n";

#[test]
fn each_line_is_printed(rt: HostRuntime) -> Result<(), Fail> {
    let alloc = rt.alloc();
    let text = answer_lines(alloc, &answers(alloc)?, &names(alloc)?)?;
    assert_eq!(rt; text.as_bytes(), LINES);
    let none = answer_lines(alloc, &Vec::new(alloc), &names(alloc)?)?;
    assert_eq!(rt; none.as_bytes(), b"".as_slice());
    Ok(())
}

#[test]
fn lines_are_written_up_to_the_fault(rt: HostRuntime) -> Result<(), Fail> {
    let alloc = rt.alloc();
    let cases: [(usize, &[u8], bool); 3] = [
        (100, LINES, true),
        (27, b"3: refused NoSpace 7 2\n5: n", false),
        (0, b"", false),
    ];
    for (capacity, written, well) in cases {
        let mut sink = MemSink::new(alloc, capacity, Vec::new(alloc))?;
        let result = write_answers(&mut sink, &answers(alloc)?, &names(alloc)?);
        assert_eq!(rt; result, if well { Ok(()) } else { Err(Failed) });
        assert_eq!(rt; sink.bytes(), written);
        assert_eq!(rt; sink.faults(), if well { 0 } else { 1 });
    }
    Ok(())
}
