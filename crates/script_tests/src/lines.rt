//! A line that takes place and is answered, and one of which a piece fails.
use command_table::Command;
use line_answers::Answer;
use line_table::{EntryKind, JournalEntry, LineTable};
use lvm_script::Line;
use sector_base::Piece;
use std::test::Fail;

const NO_PIECE: Piece = Piece {
    volume: 0,
    first: 0,
    count: 0,
    write: false,
};

fn waiting(number: u64) -> Line {
    Line {
        number,
        id: None,
        command: Command::Wait,
    }
}

#[test]
fn a_command_takes_place_and_is_answered(rt: HostRuntime) -> Result<(), Fail> {
    let mut table = LineTable::new(rt.alloc())?;
    assert!(rt; table.is_done());
    table.reserve(3)?;
    let line = table.begin(waiting(4), 5);
    assert_eq!(rt; line, 0);
    assert!(rt; !table.is_done());
    table.took(line, NO_PIECE, 6);
    table.answer(line, Answer::Fine, 6);
    assert!(rt; table.is_done());
    assert_eq!(rt; table.journal().len(), 3);
    let took = JournalEntry {
        kind: EntryKind::Took,
        line: 0,
        piece: NO_PIECE,
        moment: 6,
    };
    assert_eq!(rt; table.journal().get(1), Some(&took));
    let answered = matches!(table.answers().get(0), Some((4, Some(Answer::Fine))));
    assert!(rt; answered);
    Ok(())
}

#[test]
fn a_piece_fails(rt: HostRuntime) -> Result<(), Fail> {
    let mut table = LineTable::new(rt.alloc())?;
    table.reserve(2)?;
    let line = table.begin_on(waiting(1), 7, 0);
    let piece = Piece {
        volume: 7,
        first: 8,
        count: 2,
        write: true,
    };
    table.failed(line, piece, 3);
    let begun = JournalEntry {
        kind: EntryKind::Begun,
        line: 0,
        piece: Piece {
            volume: 7,
            ..NO_PIECE
        },
        moment: 0,
    };
    let failed = JournalEntry {
        kind: EntryKind::Failed,
        line: 0,
        piece,
        moment: 3,
    };
    assert_eq!(rt; table.journal().get(0), Some(&begun));
    assert_eq!(rt; table.journal().get(1), Some(&failed));
    Ok(())
}
