use super::*;
use report_frame::{Table, Value};
use std::alloc::{AllocError, Global};
use std::test::*;

// The wanted rows and bad places are those of Python's csv module, and of the rules for rows.

// Whether the text is a table of these rows of two cells.
fn reads(alloc: Global, text: &[u8], rows: &[[&[u8]; 2]]) -> bool {
    match read_table(alloc, text, 2) {
        Ok(table) => table.len() == rows.len() && has_rows(&table, rows),
        Err(_) => false,
    }
}

// Whether each of these rows is at its place in the table.
fn has_rows(table: &Table, rows: &[[&[u8]; 2]]) -> bool {
    for (i, row) in rows.iter().enumerate() {
        if i >= table.len() {
            return false;
        }
        let [first, second] = *row;
        let wanted = [
            Value::of(first).unwrap_or_default(),
            Value::of(second).unwrap_or_default(),
        ];
        if table.row(i) != wanted.as_slice() {
            return false;
        }
    }
    true
}

#[test]
fn rows_are_read(rt: HostRuntime) {
    let cases: [(&[u8], &[[&[u8]; 2]]); 7] = [
        (b"", &[]),
        (b"a,b", &[[b"a", b"b"]]),
        (b"a,b\nc,d\n", &[[b"a", b"b"], [b"c", b"d"]]),
        (b"a,b\r\nc,d\r\n", &[[b"a", b"b"], [b"c", b"d"]]),
        (b"\n\r\n\na,b\n\n\nc,d\n\n", &[[b"a", b"b"], [b"c", b"d"]]),
        (
            b"\"x,y\",\"say \"\"hi\"\"\"\n\"two\nlines\", b ",
            &[[b"x,y", b"say \"hi\""], [b"two\nlines", b" b "]],
        ),
        (b"\xff\x00\x01,a\n", &[[b"\xff\x00\x01", b"a"]]),
    ];
    for (text, rows) in cases {
        assert!(rt; reads(rt.alloc(), text, rows), "{text:?}");
    }
    let longest = [b'x'; 64];
    let mut text = [b'x'; 66];
    text[64] = b',';
    assert!(rt; reads(rt.alloc(), &text, &[[&longest, b"x"]]));
}

#[test]
fn rows_with_extra_bytes_are_read(rt: HostRuntime) -> Result<(), Fail> {
    let alloc = rt.alloc();
    let table = read_table2(alloc, b"red,blue,abc\ngreen,pink,\n", 2).map_err(|_| AllocError)?;
    assert_eq!(rt; table.len(), 2);
    assert!(rt; table.row(0).len() == 2);
    assert_eq!(rt; table.row(0)[1].as_slice(), b"blue".as_slice());
    assert_eq!(rt; table.extra(0).as_slice(), b"abc".as_slice());
    assert_eq!(rt; table.row(1)[0].as_slice(), b"green".as_slice());
    assert_eq!(rt; table.extra(1).as_slice(), b"".as_slice());
    Ok(())
}

#[test]
fn the_first_bad_place_of_version_2_is_found(rt: HostRuntime) {
    let mut most = [b'x'; 4 + 255];
    most[..4].copy_from_slice(b"red,");
    let mut more = [b'x'; 4 + 256];
    more[..4].copy_from_slice(b"red,");
    let cases: [(&[u8], usize, Option<(u32, u32)>); 10] = [
        (b"red", 1, Some((0, 1))),
        (b"red,a,b", 1, Some((0, 2))),
        (&most, 1, None),
        (&more, 1, Some((0, 1))),
        (b"red,", 1, None),
        (b"red,a\n,a", 1, Some((1, 0))),
        (b"red,a\nblue,,", 1, Some((1, 2))),
        (b"1,2,3,4,5,6,7,8,9,10,11,12,13,14,15,16,", 16, None),
        (b"1,2,3,4,5,6,7,8,9,10,11,12,13,14,15,16", 16, Some((0, 16))),
        (
            b"1,2,3,4,5,6,7,8,9,10,11,12,13,14,15,16,,",
            16,
            Some((0, 17)),
        ),
    ];
    for (text, width, place) in cases {
        let found = read_table2(rt.alloc(), text, width).err();
        let wanted = place.map(|(row, column)| TableError::BadTable { row, column });
        assert!(rt; found == wanted, "{text:?}");
    }
}

#[test]
fn the_first_bad_place_is_found(rt: HostRuntime) {
    let mut long_text = [b'x'; 67];
    long_text[65] = b',';
    let cases: [(&[u8], usize, u32, u32); 10] = [
        (b"a,b\nc\n", 2, 1, 1),
        (b"a,", 2, 0, 1),
        (b"a,b,c", 2, 0, 2),
        (&long_text, 2, 0, 0),
        (b"a,b\n,d\ne\n", 2, 1, 0),
        (b"a,b\n\"\"\n", 2, 1, 0),
        (b"a,b\nc,d,\n", 2, 1, 2),
        (b"a\nb,\n", 1, 1, 1),
        (b"1,2,3,4,5,6,7,8\n1,2,3,4,5,6,7\n", 8, 1, 7),
        (b"1,2,3,4,5,6,7,8,9\n", 8, 0, 8),
    ];
    for (text, width, row, column) in cases {
        let found = read_table(rt.alloc(), text, width).err();
        assert!(rt;
            found == Some(TableError::BadTable { row, column }),
            "{text:?}"
        );
    }
}

// So many lines of two cells after a first line.
fn lines(alloc: Global, first: &[u8], count: usize) -> Result<Vec<u8>, AllocError> {
    let mut text = Vec::from_slice(alloc, first)?;
    for _ in 0..count {
        text.extend_from_slice(b"red,blue\n")?;
    }
    Ok(text)
}

#[test]
fn as_many_rows_as_there_may_be(rt: HostRuntime) -> Result<(), Fail> {
    let alloc = rt.alloc();
    let most = lines(alloc, b"red,blue\n", 65535)?;
    let table = read_table(alloc, most.as_slice(), 2).map_err(|_| AllocError)?;
    assert_eq!(rt; table.len(), 65536);
    assert!(rt; has_rows(&table, &[[b"red", b"blue"]]));
    let last = [
        Value::of(b"red").unwrap_or_default(),
        Value::of(b"blue").unwrap_or_default(),
    ];
    assert!(rt; table.row(65535) == last.as_slice());
    let first_bad = TableError::BadTable { row: 0, column: 2 };
    let cases: [(&[u8], usize, TableError); 3] = [
        (b"", 65537, TableError::TooMany),
        (b"red,blue,", 65536, first_bad),
        (b"red,blue,", 65537, TableError::TooMany),
    ];
    for (first, count, wanted) in cases {
        let text = lines(alloc, first, count)?;
        let found = read_table(alloc, text.as_slice(), 2).err();
        assert!(rt; found == Some(wanted), "{count} {wanted:?}");
    }
    Ok(())
}
