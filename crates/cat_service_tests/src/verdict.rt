//! What a test comes down to: whether it is so, or the name of the first case that isn't. Nothing here ends the process, so tests
//! that end in these are proved sooner than ones that assert.
use std::fmt::Debug;
use std::test::Fail;

/// Fails with the name of the case that isn't so, unless there is none. An error is told as it is.
pub(crate) fn expect_none<E: Debug + Drop>(
    failing: Result<Option<&'static str>, E>,
) -> Result<(), Fail> {
    match failing {
        Ok(None) => Ok(()),
        Ok(Some(name)) => Err(Fail::new(name)),
        Err(error) => Err(Fail::from(error)),
    }
}
