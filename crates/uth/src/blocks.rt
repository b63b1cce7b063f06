// The blocks of a file: all of them into two lent rooms, or one by itself.
ghost use Rattle.std.specs.Prelude.{◌≡◌, Ok, map, ◌+◌, ◌*◌, ◌≤◌, ◌<◌, length, set};
ghost use Rattle.calendar.specs.Said.{said};
ghost use Rattle.uth.specs.Blocks.{block_of, blocks_in, blocks_of, flag_of, number_of, row_of, pair_of, put_all};
ghost use Rattle.uth.specs.Blocks.{ReadsUth, block_read_of};
ghost use Rattle.uth.specs.Steps.{Fills, Finds};

use crate::judge::{judge, refused};
use crate::value::{value_at, word};
use calendar::{Refusal, fault};

#[derive(Clone, Copy)]
pub struct Block {
    pub line: u32,
    pub column: u32,
    pub uth: Option<f32>,
    pub csr: Option<f32>,
}

// The block that starts at `b`.
fn block_of(bytes: &[u8], line: u32, column: u32, b: usize) -> Block
    requires { b + 72 ≤ length bytes.now }
    ensures { result ≡ block_of bytes.now line column b }
{
    Block {
        line,
        column,
        uth: value_at(bytes, b + 8),
        csr: value_at(bytes, b + 12),
    }
}

fn flag(v: Option<f32>) -> u32
    ensures { result ≡ flag_of v }
{
    v.is_some() as u32
}

fn number(v: Option<f32>) -> f32
    ensures { result ≡ number_of v }
{
    v.unwrap_or(0.0)
}

// A block into place i of both rooms.
fn put_block(blocks: &mut [[u32; 4]], values: &mut [[f32; 2]], i: usize, block: Block)
    requires { (i < length blocks.old) × (i < length values.old) }
    ensures { (blocks.new ≡ set blocks.old i (row_of block))
        × (values.new ≡ set values.old i (pair_of block)) }
{
    let uth = block.uth;
    let csr = block.csr;
    blocks[i] = [block.line, block.column, flag(uth), flag(csr)];
    values[i] = [number(uth), number(csr)];
}

// The n blocks from byte `from` on, into place `first` of both rooms and those after it.
fn put_blocks(
    bytes: &[u8],
    line: u32,
    column: u32,
    from: usize,
    n: usize,
    blocks: &mut [[u32; 4]],
    values: &mut [[f32; 2]],
    first: usize,
)
    requires { (from + 72 * n ≤ length bytes.now)
        × (first + n ≤ length blocks.old) × (first + n ≤ length values.old) }
    ensures { (blocks.new ≡ put_all blocks.old first
        (map row_of (blocks_in bytes.now line column n from)))
        × (values.new ≡ put_all values.old first
        (map pair_of (blocks_in bytes.now line column n from))) }
{
    for k in 0..n {
        put_block(
            blocks,
            values,
            first + k,
            block_of(bytes, line, column, from + 72 * k),
        );
    }
}

// The blocks of the m segments of a file that is read.
fn fill(bytes: &[u8], m: usize, blocks: &mut [[u32; 4]], values: &mut [[f32; 2]])
    requires { Fills bytes.now m (length blocks.old) (length values.old) }
    ensures { (blocks.new ≡ put_all blocks.old 0 (map row_of (blocks_of bytes.now)))
        × (values.new ≡ put_all values.old 0 (map pair_of (blocks_of bytes.now))) }
{
    let mut p: usize = 642;
    let mut i: usize = 0;
    for _ in 0..m {
        let n = word(bytes, p + 32);
        let line = word(bytes, p) as u32;
        let column = word(bytes, p + 4) as u32;
        put_blocks(bytes, line, column, p + 36, n, blocks, values, i);
        p = p + 36 + 72 * n;
        i += n;
    }
}

// Reads a file: of each block its line and column, and whether its UTH and CSR are there, into a place of `blocks`, and these two, or 0.0,
// into the same place of `values`.
pub fn read_uth(
    bytes: &[u8],
    blocks: &mut [[u32; 4]],
    values: &mut [[f32; 2]],
) -> Result<usize, Refusal>
    ensures { ReadsUth bytes.now blocks.old values.old result
        blocks.new values.new }
{
    let n = judge(bytes)?;
    if blocks.len() < n {
        return refused(fault::ROOM, n);
    }
    if values.len() < n {
        return refused(fault::ROOM, n);
    }
    fill(bytes, word(bytes, 614), blocks, values);
    Ok(n)
}

// Block k of a file that is read and has so many.
fn find(bytes: &[u8], k: usize) -> Block
    requires { Finds bytes.now k }
    ensures { said (Ok result) ≡ block_read_of bytes.now k }
{
    let mut p: usize = 642;
    let mut left = k;
    while left >= word(bytes, p + 32) {
        let n = word(bytes, p + 32);
        left -= n;
        p = p + 36 + 72 * n;
    }
    let line = word(bytes, p) as u32;
    let column = word(bytes, p + 4) as u32;
    block_of(bytes, line, column, p + 36 + 72 * left)
}

// Block k alone, counted from 0: the file's own refusal, then 19 with the number of blocks where there is none.
pub fn block_at(bytes: &[u8], k: usize) -> Result<Block, Refusal>
    ensures { said result ≡ block_read_of bytes.now k }
{
    let n = judge(bytes)?;
    if n <= k {
        return Err(Refusal {
            number: fault::NO_RECORD,
            place: n,
        });
    }
    Ok(find(bytes, k))
}
