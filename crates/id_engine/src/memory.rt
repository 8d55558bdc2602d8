//! Memory that is kept at hand, for speed alone.

use std::alloc::{AllocError, Global};

/// The size of a block of memory a little above what the tokens of a text take, and what its rows take.
const KEPT: usize = 0x110_0000;

/// Has memory that is given back kept for what is taken next. The C library gives a large block back to the system,
/// which clears each page of it before it is handed out again; but one is large only until a larger one was given back.
pub(crate) fn keep_memory(alloc: Global) {
    let _ = Vec::<u8>::with_capacity(alloc, KEPT);
    let _ = cache_blocks(alloc);
}

/// The size of the smallest block, how much larger the next size is, how many sizes a tree's blocks have, and how many
/// blocks of each the C library keeps at hand.
const LEAST: usize = 24;

const STEP: usize = 16;

const SIZES: usize = 10;

const CACHED: usize = 7;

/// Has the blocks that the C library keeps at hand lie before all else. It never joins them with what is free beside
/// them, so those of a text's tree would part the room that the tree gives back.
fn cache_blocks(alloc: Global) -> Result<(), AllocError> {
    let mut blocks = Vec::with_capacity(alloc, SIZES * CACHED)?;
    for number in 0..SIZES * CACHED {
        let size = LEAST + number / CACHED * STEP;
        blocks.push(Vec::<u8>::with_capacity(alloc, size)?)?;
    }
    Ok(())
}
