//! The texts of replies, as the rules of the protocol spell them: each refusal, also those that no day of lines can bring about,
//! and numbers. The other replies stand in tests/days.
use crate::verdict::expect_none;
use cat_base::{Refusal, SessionNo};
use cat_service::cat_protocol::replies::{Answer, Reply};
use std::alloc::{AllocError, Global};
use std::test::Fail;

/// A session, a number that it is told or why not, and the text of the reply.
type Row<'a> = (SessionNo, Result<u64, Refusal>, &'a str);

/// A row is named by its text. Behind 24 stands the place, a byte of the query, counted from 0.
const ROWS: &[Row<'static>] = &[
    (0, Ok(0), "0 OK 0\n"),
    (3, Ok(12), "3 OK 12\n"),
    (9999, Ok(1_000_000), "9999 OK 1000000\n"),
    (9999, Ok(u64::MAX), "9999 OK 18446744073709551615\n"),
    (3, Err(Refusal::Line), "3 NO 10\n"),
    (3, Err(Refusal::Json), "3 NO 11\n"),
    (3, Err(Refusal::Member), "3 NO 12\n"),
    (3, Err(Refusal::Kind), "3 NO 13\n"),
    (3, Err(Refusal::Id), "3 NO 14\n"),
    (3, Err(Refusal::Large), "3 NO 15\n"),
    (3, Err(Refusal::Spent), "3 NO 16\n"),
    (3, Err(Refusal::NotHeld), "3 NO 20\n"),
    (3, Err(Refusal::Gone), "3 NO 21\n"),
    (3, Err(Refusal::Full), "3 NO 22\n"),
    (3, Err(Refusal::Mark), "3 NO 23\n"),
    (3, Err(Refusal::Query(0)), "3 NO 24 0\n"),
    (3, Err(Refusal::Query(6)), "3 NO 24 6\n"),
    (3, Err(Refusal::Query(9979)), "3 NO 24 9979\n"),
    (3, Err(Refusal::Count), "3 NO 25\n"),
    (3, Err(Refusal::NoCommit), "3 NO 26\n"),
    (3, Err(Refusal::NoSnapshot), "3 NO 27\n"),
    (3, Err(Refusal::SortField), "3 NO 28\n"),
    (3, Err(Refusal::NotFacet), "3 NO 29\n"),
    (3, Err(Refusal::Device), "3 NO 30\n"),
    (3, Err(Refusal::Damaged), "3 NO 31\n"),
    (3, Err(Refusal::Memory), "3 NO 40\n"),
];

/// Whether the reply has this text.
fn is_told(alloc: Global, row: Row<'_>) -> Result<bool, AllocError> {
    let (session, told, wanted) = row;
    let answer = match told {
        Ok(number) => Ok(Answer::Number(number)),
        Err(refusal) => Err(refusal),
    };
    let text = Reply { session, answer }.text(alloc)?;
    Ok(text.as_slice() == wanted.as_bytes())
}

/// The text of the first row whose reply has another, if there is one.
fn failing(alloc: Global, rows: &[Row<'static>]) -> Result<Option<&'static str>, AllocError> {
    for row in rows {
        if !is_told(alloc, *row)? {
            return Ok(Some(row.2));
        }
    }
    Ok(None)
}

#[test]
fn numbers_and_refusals_have_their_texts(rt: HostRuntime) -> Result<(), Fail> {
    expect_none(failing(rt.alloc(), ROWS))
}
