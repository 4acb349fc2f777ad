//! Texts of rows, written by hand.
use bt_base::{Fail as Failure, Text};
use row_fields::RowFault;
use row_texts::{Row, row_of, row_text};
use std::alloc::Global;
use std::test::Fail;

/// A row of each kind.
fn texts_of_rows() -> [(u8, &'static str); 8] {
    [
        (
            1,
            r#"["p",false,"Resizing",2,"Pack",true,["init",-1,false],3,0,"TaskCompletion",900000,300000,5,null,7]"#,
        ),
        (2, r#"[1,"p",2,["Leaving","Requeue"],0]"#),
        (
            3,
            r#"["j","p","Active",-5,-1,2,null,true,false,true,["prep",0,true],["release",900000],9,"done"]"#,
        ),
        (
            4,
            r#"["j","t","echo hi",1,null,60000,null,[[5,["Disable",true]]],[[6,8,[null,false]]],["Nothing",null],null,["a","b"],[[1,3]],[2,"w"],"Completed",3,2,"Wall",["Code",-1],4,[["Ended","NoCode"],false,true,10]]"#,
        ),
        (
            5,
            r#"[7,"Task",1,"p","j","t",2,"echo hi",1,["Ended",["Code",0]],false,3,5,null]"#,
        ),
        (6, r#"["j",1,"Running",0,true,"Done"]"#),
        (7, r#"["p","CpuPercent",30000,42500000]"#),
        (8, r#"["p","x = 1;",900000,0,null]"#),
    ]
}

/// Texts that are no rows of nodes, each with one fault.
fn texts_of_no_nodes() -> [&'static str; 8] {
    [
        "[1",
        "{}",
        r#"[1,"p",2,"Usable"]"#,
        r#"[1.0,"p",2,"Usable",0]"#,
        r#"[1,"p",256,"Usable",0]"#,
        r#"[1,"p q",2,"Usable",0]"#,
        r#"[1,"p",2,"usable",0]"#,
        r#"[1,null,2,"Usable",0]"#,
    ]
}

/// The number of the kind of the row that the text is, and the text of the row.
fn written_again(alloc: Global, kind: u8, text: &str) -> Result<(u8, Text), Failure<RowFault>> {
    let row = row_of(alloc, kind, text)?;
    Ok((row.kind().number(), row_text(alloc, &row)?))
}

/// The number, the seat and the tries of the node that the text is; None if the row is no node's.
fn node_numbers(alloc: Global, text: &str) -> Result<Option<(u64, u8, u64)>, Failure<RowFault>> {
    Ok(match row_of(alloc, 2, text)? {
        Row::Node(node) => Some((node.number, node.seat, node.tries)),
        _ => None,
    })
}

fn is_not_a_row(alloc: Global, kind: u8, text: &str) -> bool {
    matches!(
        row_of(alloc, kind, text),
        Err(Failure::Why(RowFault::NotARow))
    )
}

#[test]
fn rows_are_read_and_written_in_the_order_of_their_fields(rt: HostRuntime) -> Result<(), Fail> {
    for (kind, text) in texts_of_rows() {
        let (number, written) = written_again(rt.alloc(), kind, text)?;
        assert_eq!(rt; number, kind);
        assert_eq!(rt; written.as_str(), text);
    }
    let numbers = node_numbers(rt.alloc(), r#"[1,"p",2,"Usable",3]"#)?;
    assert_eq!(rt; numbers, Some((1, 2, 3)));
    Ok(())
}

#[test]
fn other_texts_are_not_rows(rt: HostRuntime) -> Result<(), Fail> {
    for text in texts_of_no_nodes() {
        let is_refused = is_not_a_row(rt.alloc(), 2, text);
        assert!(rt; is_refused, "{text}");
    }
    for kind in [0, 9] {
        let is_refused = is_not_a_row(rt.alloc(), kind, r#"[1,"p",2,"Usable",0]"#);
        assert!(rt; is_refused, "{kind}");
    }
    Ok(())
}
