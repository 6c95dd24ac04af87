//! For which bytes of a file memory is taken, how it goes, and how pages are counted.

use super::*;
use std::alloc::{AllocError, Global};
use std::test::Fail;

/// In how many times 64 pages that lie side by side, and in how many pages, something was written, behind a write of these bytes at
/// an offset, or where there are none behind a cut or a growth to it.
fn pages_behind(
    bytes: &mut Bytes,
    pool: &mut Pool,
    alloc: Global,
    offset: u64,
    text: &[u8],
) -> Result<(usize, u64), AllocError> {
    if text.is_empty() {
        bytes.resize(offset, pool);
    } else {
        bytes.write(alloc, pool, offset, text)?;
    }
    Ok((bytes.pages.map.len(), bytes.page_count()))
}

/// The same of changes of a new file.
fn pages_of_a_file(alloc: Global) -> Result<[(usize, u64); 7], AllocError> {
    let mut bytes = Bytes::zeros(alloc, 0);
    let mut pool = Pool::new(alloc);
    let pool = &mut pool;
    Ok([
        // the last byte that a file may have
        pages_behind(&mut bytes, pool, alloc, 1_099_511_627_775, b"z")?,
        // over the edge of two pages, of which the second is cut to nothing and grows again
        pages_behind(&mut bytes, pool, alloc, 4_095, b"ab")?,
        pages_behind(&mut bytes, pool, alloc, 4_096, b"")?,
        pages_behind(&mut bytes, pool, alloc, 4_098, b"")?,
        // into what a growth has left, and over the whole of a page
        pages_behind(&mut bytes, pool, alloc, 4_294_967_296, b"c")?,
        pages_behind(&mut bytes, pool, alloc, 8_191, b"de")?,
        pages_behind(&mut bytes, pool, alloc, 0, b"")?,
    ])
}

#[test]
fn a_page_is_made_where_bytes_are_written(rt: HostRuntime) -> Result<(), Fail> {
    let pages = pages_of_a_file(rt.alloc());
    assert_eq!(rt;
        pages,
        Ok([(1, 1), (2, 3), (1, 1), (1, 1), (2, 2), (2, 4), (0, 0)])
    );
    Ok(())
}

/// Whether something waits behind so many steps, one after another: of a file of five times 64 pages that is cut to a byte, and then ends.
fn steps_of_a_cut(alloc: Global) -> Result<[bool; 4], AllocError> {
    let mut bytes = Bytes::zeros(alloc, 0);
    let mut pool = Pool::new(alloc);
    for k in 0..5u64 {
        bytes.write(alloc, &mut pool, k * 262_144, b"x")?;
    }
    bytes.resize(1, &mut pool);
    let cut = [pool.drop_some(5), pool.drop_some(1)];
    bytes.write(alloc, &mut pool, 524_288, b"y")?;
    bytes.write(alloc, &mut pool, 1_048_576, b"z")?;
    bytes.leave(&mut pool);
    Ok([cut[0], cut[1], pool.drop_some(4), pool.drop_some(1)])
}

#[test]
fn pages_wait_to_be_dropped(rt: HostRuntime) -> Result<(), Fail> {
    let steps = steps_of_a_cut(rt.alloc());
    assert_eq!(rt; steps, Ok([true, false, true, false]));
    Ok(())
}

/// How many pages of a pool a file has taken behind a write or a cut, and 100 more where it was refused; 1,000 where the pool counts others.
fn taken_behind(
    bytes: &mut Bytes,
    pool: &mut Pool,
    alloc: Global,
    offset: u64,
    text: &[u8],
) -> u64 {
    let done = pages_behind(bytes, pool, alloc, offset, text);
    let taken = bytes.taken();
    if pool.budget.taken != taken {
        return 1_000;
    }
    match done {
        Ok(_) => taken,
        Err(_) => taken.saturating_add(100),
    }
}

/// The same of changes of a file where there are three pages.
fn taken_of_three(alloc: Global) -> [u64; 12] {
    let mut bytes = Bytes::zeros(alloc, 0);
    let mut pool = Pool::new(alloc);
    let pool = &mut pool;
    pool.bound(3);
    [
        // three pages, and a fourth of the same 64 and of others
        taken_behind(&mut bytes, pool, alloc, 0, b"a"),
        taken_behind(&mut bytes, pool, alloc, 8_191, b"bc"),
        taken_behind(&mut bytes, pool, alloc, 12_288, b"d"),
        taken_behind(&mut bytes, pool, alloc, 262_144, b"e"),
        // where they are it writes on
        taken_behind(&mut bytes, pool, alloc, 4_096, b"f"),
        // one goes; two that are new are one too many, and the first is given back, and stays where others of its 64 are
        taken_behind(&mut bytes, pool, alloc, 8_192, b""),
        taken_behind(&mut bytes, pool, alloc, 528_383, b"gh"),
        taken_behind(&mut bytes, pool, alloc, 12_287, b"ij"),
        // what is cut within a page keeps it, and grows by none
        taken_behind(&mut bytes, pool, alloc, 4_097, b""),
        taken_behind(&mut bytes, pool, alloc, 8_191, b"k"),
        taken_behind(&mut bytes, pool, alloc, 1_099_511_627_775, b"l"),
        taken_behind(&mut bytes, pool, alloc, 0, b""),
    ]
}

#[test]
fn a_pool_bounds_the_pages(rt: HostRuntime) -> Result<(), Fail> {
    let taken = taken_of_three(rt.alloc());
    assert_eq!(rt; taken, [1, 3, 103, 103, 3, 2, 102, 103, 2, 2, 3, 0]);
    Ok(())
}

/// Writes, cuts and a refused write of a file, of which some take no memory any more where an earlier one was refused it.
fn change_some(
    bytes: &mut Bytes,
    pool: &mut Pool,
    alloc: Global,
    round: u64,
) -> Result<(), AllocError>
    requires { round < 8 }
{
    for k in 0..5u64 {
        bytes.write(alloc, pool, k * 262_144 + round * 585, b"across")?;
    }
    bytes.resize(300_000 + round, pool);
    bytes.write(alloc, pool, 299_006 + round, b"over the edge")?;
    bytes.resize(round, pool);
    bytes.write(alloc, pool, 1_048_575, &[7; 9_000])?;
    Ok(())
}

/// The same of a new file that then ends, and of the text of a link, which ends or is kept nowhere.
fn live_and_end(pool: &mut Pool, alloc: Global, round: u64)
    requires { round < 8 }
{
    let mut bytes = Bytes::zeros(alloc, 0);
    let _ = change_some(&mut bytes, pool, alloc, round);
    bytes.leave(pool);
    if let Ok(text) = Bytes::of(alloc, pool, b"text") {
        if round % 2 == 0 {
            text.leave(pool);
        } else {
            pool.take_back(text.taken());
        }
    }
}

/// How many pages are taken behind eight such files, when what waits is dropped: none, whichever memory was refused.
fn taken_behind_files(alloc: Global) -> u64 {
    let mut pool = Pool::new(alloc);
    pool.bound(7);
    for round in 0..8u64 {
        live_and_end(&mut pool, alloc, round);
        pool.drop_some(20);
    }
    pool.budget.taken
}

#[test]
fn all_pages_come_back(rt: HostRuntime) -> Result<(), Fail> {
    let taken = taken_behind_files(rt.alloc());
    assert_eq!(rt; taken, 0);
    Ok(())
}
