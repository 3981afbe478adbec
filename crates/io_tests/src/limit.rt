use dtp_io::{MemSource, ReadError, read_all};
use std::alloc::{AllocError, Global};
use std::test::Fail;

/// How many bytes are read of a source that has these, where the limit is so many.
fn count_read(alloc: Global, bytes: &[u8], limit: u64) -> Result<usize, ReadError> {
    let mut source = MemSource::new(bytes, &[]);
    let all = read_all(alloc, &mut source, limit)?;
    Ok(all.len())
}

/// What comes of a source of 20,000 bytes, which takes three reads, at and about the limit, and of an empty one.
fn counts(alloc: Global) -> Result<[Result<usize, ReadError>; 5], AllocError> {
    let bytes = vec![in alloc; b' '; 20_000]?;
    Ok([
        count_read(alloc, &bytes, 20_001),
        count_read(alloc, &bytes, 20_000),
        count_read(alloc, &bytes, 19_999),
        count_read(alloc, &bytes, 0),
        count_read(alloc, &[], 0),
    ])
}

#[test]
fn reads_to_the_limit(rt: HostRuntime) -> Result<(), Fail> {
    let counts = counts(rt.alloc())?;
    assert_eq!(rt;
        counts,
        [
            Ok(20_000),
            Ok(20_000),
            Err(ReadError::TooLong),
            Err(ReadError::TooLong),
            Ok(0),
        ]
    );
    Ok(())
}
