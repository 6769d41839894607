//! Histories of moves, and the texts of edits. The rows were written by hand from the rules of
//! scripts.

use diagram_moves::{Move, MoveFault, Side};
use known_links::{CURL, TREFOIL, diagram_of};
use std::test::Fail;
use undo_stack::{
    EditFault, EditLine, Editor, NothingToRedo, NothingToUndo, SCRIPT_LINES, ScriptStop, carry_out,
    read_edit,
};

/// A curl with a kink on its first arc.
const KINKED: &[[u8; 4]] = &[[3, 1, 4, 4], [1, 3, 2, 2]];

/// The move that puts the kink there, and the one that drops it.
const ADD: Move = Move::KinkAdd {
    arc: 1,
    under_first: true,
    positive: true,
};

const DROP: Move = Move::KinkDrop { crossing: 2 };

/// Three hundred changes, of which the last 256 are undone and redone.
#[test]
fn the_last_256_changes_are_undone(rt: HostRuntime) -> Result<(), Fail> {
    let one = diagram_of(CURL, 0)?;
    let two = diagram_of(KINKED, 0)?;
    let mut editor = Editor::new(rt.alloc(), one)?;
    for _ in 0..150u8 {
        assert!(rt; editor.do_move(ADD) == Ok(()));
        assert!(rt; *editor.diagram() == two);
        assert!(rt; editor.do_move(DROP) == Ok(()));
        assert!(rt; *editor.diagram() == one);
    }
    for at in 0..256u16 {
        assert!(rt; editor.undo() == Ok(()));
        assert!(rt; *editor.diagram() == if at % 2 == 0 { two } else { one });
    }
    assert!(rt; editor.undo() == Err(NothingToUndo));
    assert!(rt; *editor.diagram() == one);
    for at in 0..256u16 {
        assert!(rt; editor.redo() == Ok(()));
        assert!(rt; *editor.diagram() == if at % 2 == 0 { two } else { one });
    }
    assert!(rt; editor.redo() == Err(NothingToRedo));
    assert!(rt; *editor.diagram() == one);
    Ok(())
}

/// A change after an undo empties the future; a refused one keeps it, and the diagram.
#[test]
fn a_change_after_an_undo_empties_the_future(rt: HostRuntime) -> Result<(), Fail> {
    let trefoil = diagram_of(TREFOIL, 0)?;
    let mut editor = Editor::new(rt.alloc(), trefoil)?;
    assert!(rt; editor.undo() == Err(NothingToUndo));
    assert!(rt; editor.redo() == Err(NothingToRedo));
    assert!(rt; editor.do_move(ADD) == Ok(()));
    let kinked = *editor.diagram();
    assert!(rt; editor.undo() == Ok(()));
    let refused = editor.do_move(Move::KinkDrop { crossing: 1 });
    assert!(rt; refused == Err(MoveFault::NoKink { crossing: 1 }));
    assert!(rt; *editor.diagram() == trefoil);
    assert!(rt; editor.redo() == Ok(()));
    assert!(rt; *editor.diagram() == kinked);
    assert!(rt; editor.undo() == Ok(()));
    assert!(rt; editor.do_move(ADD) == Ok(()));
    assert!(rt; editor.redo() == Err(NothingToRedo));
    assert!(rt; editor.undo() == Ok(()));
    assert!(rt; *editor.diagram() == trefoil);
    Ok(())
}

/// The text of an edit of a curl, read and carried out; a line that is refused changes nothing.
#[test]
fn a_refused_line_of_an_edit_changes_nothing(rt: HostRuntime) -> Result<(), Fail> {
    let script = read_edit(rt.alloc(), b"r1 drop 1\n\nundo\nundo\nredo\n".as_slice())?;
    let mut editor = Editor::new(rt.alloc(), diagram_of(CURL, 0)?)?;
    let (curl, circle) = (diagram_of(CURL, 0)?, diagram_of(&[], 1)?);
    let rows = [
        (Ok(()), circle),
        (Ok(()), curl),
        (Err(EditFault::NothingToUndo), curl),
        (Ok(()), circle),
    ];
    assert!(rt; script.lines.len() == rows.len());
    for (line, row) in script.lines.iter().zip(rows.iter()) {
        assert!(rt; carry_out(&mut editor, line.1) == row.0);
        assert!(rt; *editor.diagram() == row.1);
    }
    Ok(())
}

#[test]
fn reads_each_form_of_an_edit(rt: HostRuntime) -> Result<(), Fail> {
    let rows = [
        ("r1 add 1 under plus", EditLine::Change(ADD)),
        ("r1\tadd\r001 under  plus \r\n", EditLine::Change(ADD)),
        ("r1 add 0 over minus\n", kink(0, false, false)),
        ("r1 add 255 under minus", kink(255, true, false)),
        ("r1 drop 02", EditLine::Change(DROP)),
        (
            "r2 add 1 left 2 right",
            finger(1, Side::Left, 2, Side::Right),
        ),
        (
            "r2 add 255 right 0 left",
            finger(255, Side::Right, 0, Side::Left),
        ),
        ("r2 drop 1 255", bigon(1, 255)),
        ("r3 1 2 3", slide(1, 2, 3)),
        (" undo\t", EditLine::Undo),
        ("redo\r\n", EditLine::Redo),
    ];
    for (text, wanted) in rows {
        let script = read_edit(rt.alloc(), text.as_bytes())?;
        assert!(rt; script.lines.as_slice() == [(1, wanted)].as_slice());
    }
    Ok(())
}

fn kink(arc: u8, under_first: bool, positive: bool) -> EditLine {
    EditLine::Change(Move::KinkAdd {
        arc,
        under_first,
        positive,
    })
}

fn finger(over: u8, over_side: Side, under: u8, under_side: Side) -> EditLine {
    EditLine::Change(Move::FingerAdd {
        over,
        over_side,
        under,
        under_side,
    })
}

fn bigon(first: u8, second: u8) -> EditLine {
    EditLine::Change(Move::FingerDrop { first, second })
}

fn slide(first: u8, second: u8, third: u8) -> EditLine {
    EditLine::Change(Move::Slide {
        first,
        second,
        third,
    })
}

/// A text that has a wrong line, and the number of the first.
const WRONG_EDITS: [(&[u8], u32); 24] = [
    (b"r1 drop 256", 1),
    (b"r1 drop 0255", 1),
    (b"r1 drop -1", 1),
    (b"r1 drop +1", 1),
    (b"r1 drop", 1),
    (b"r1 drop 1 2", 1),
    (b"r1 add 1 under", 1),
    (b"r1 add 1 left plus", 1),
    (b"r1 add 1 under left", 1),
    (b"r1 add 1 plus under", 1),
    (b"r1 add 1 under plus 2", 1),
    (b"r2 add 1 left 2", 1),
    (b"r2 add 1 left 2 under", 1),
    (b"r2 add 1 2 left right", 1),
    (b"r2 drop 1", 1),
    (b"r2 drop 1 2 3", 1),
    (b"r3 1 2", 1),
    (b"r3 1 2 3 4", 1),
    (b"r3 drop 1 2", 1),
    (b"R1 drop 1", 1),
    (b"undo 1", 1),
    (b"redo\x0b", 1),
    (b"look 1 2", 1),
    (b"undo\n\r\n\nredo\nr1 drop 1000\nundo 2", 5),
];

#[test]
fn stops_at_the_first_wrong_line_of_an_edit(rt: HostRuntime) {
    for (text, line) in WRONG_EDITS {
        assert!(rt; text.len() <= 64);
        let stop = read_edit(rt.alloc(), text).err();
        assert!(rt; stop == Some(ScriptStop::Line { line }));
    }
}

#[test]
fn edits_have_as_many_lines_as_a_script(rt: HostRuntime) -> Result<(), Fail> {
    let mut text = Vec::new(rt.alloc());
    for _ in 0..SCRIPT_LINES {
        text.extend_from_slice(b"undo\n".as_slice())?;
    }
    assert!(rt; text.len() <= 65_536);
    assert!(rt; read_edit(rt.alloc(), &text)?.lines.len() == SCRIPT_LINES);
    text.push(b' ')?;
    assert!(rt; text.len() <= 65_536);
    let stop = ScriptStop::LineLimit { count: 4097 };
    assert!(rt; read_edit(rt.alloc(), &text).err() == Some(stop));
    Ok(())
}
