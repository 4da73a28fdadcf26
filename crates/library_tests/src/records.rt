//! Records of frames: what is read of them, and where they are cut.
use crate::bencoding::shows;
use crate::frames::RECORD;
use benc::Source;
use benc::memory::MemSource;
use std::alloc::{AllocError, Global};
use std::process::Abort;
use std::test::*;
use wire::*;

// Whether these are the answers over a record, and with each this form is known.
fn gives<R: Source>(
    alloc: Global,
    source: &mut R,
    form: Option<u8>,
    expected: &[&str],
) -> Result<bool, AllocError> {
    let mut reader = RecordReader::new(alloc, source);
    let mut is_right = reader.form() == None;
    for answer in expected {
        is_right &= shows(alloc, &reader.next(), answer)? && reader.form() == form;
    }
    Ok(is_right)
}

// The same however the record is cut.
fn expect_record(
    rt: &impl Abort,
    alloc: Global,
    record: &[u8],
    form: Option<u8>,
    expected: &[&str],
) {
    for at_most in [1, 7, usize::MAX] {
        let mut source = MemSource::new(record).at_most(at_most);
        let is_right = gives(alloc, &mut source, form, expected) == Ok(true);
        assert!(rt; is_right, "{record:?}");
    }
}

#[test]
fn records_of_form_1(rt: HostRuntime) {
    for (record, expected) in [
        (&[] as &[u8], &["Ok(None)", "Ok(None)"] as &[&str]),
        (
            &RECORD,
            &[
                "Ok(Some((In, Message(KeepAlive))))",
                "Ok(Some((In, Message(Piece { index: 0, begin: 0, block: [97, 98, 99] }))))",
                "Ok(Some((In, Message(Other { id: 4, len: 5 }))))",
                "Err(Truncated)",
                "Err(Truncated)",
            ],
        ),
        (
            &RECORD[..28],
            &[
                "Ok(Some((In, Message(KeepAlive))))",
                "Ok(Some((In, Message(Piece { index: 0, begin: 0, block: [97, 98, 99] }))))",
                "Err(Truncated)",
            ],
        ),
        (
            &RECORD[..4],
            &["Ok(Some((In, Message(KeepAlive))))", "Ok(None)"],
        ),
    ] {
        expect_record(&rt, rt.alloc(), record, Some(1), expected);
    }
}

// Records that begin as one of form 2, the form that is known of them, and the answers.
const FORM_2: &[(&[u8], Option<u8>, &[&str])] = &[
    (
        b"\xff\xff\xff\xffBTH",
        None,
        &["Err(Truncated)", "Err(Truncated)"],
    ),
    (
        b"\xff\xff\xff\xffBTH3\0",
        None,
        &["Err(Truncated)", "Err(Truncated)"],
    ),
    (b"\xff\xff\xff\xffBTH2", Some(2), &["Ok(None)", "Ok(None)"]),
    (
        b"\xff\xff\xff\xffBTH2\0\0\0\0\0\x01\0\0\0\x02\x15\0",
        Some(2),
        &[
            "Ok(Some((In, Message(KeepAlive))))",
            "Ok(Some((Out, BadSize { id: 21, len: 2 })))",
            "Ok(None)",
        ],
    ),
    (
        b"\xff\xff\xff\xffBTH2\x02",
        None,
        &["Err(BadDirection)", "Err(BadDirection)"],
    ),
    (
        b"\xff\xff\xff\xffBTH2\x01\0\0\0\0\x02\0",
        Some(2),
        &[
            "Ok(Some((Out, Message(KeepAlive))))",
            "Err(BadDirection)",
            "Err(BadDirection)",
        ],
    ),
    (
        b"\xff\xff\xff\xffBTH2\0",
        None,
        &["Err(Truncated)", "Err(Truncated)"],
    ),
];

#[test]
fn records_of_form_2(rt: HostRuntime) {
    for (record, form, expected) in FORM_2 {
        expect_record(&rt, rt.alloc(), record, *form, expected);
    }
}
