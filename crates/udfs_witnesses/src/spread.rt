//! Known blocks from all over a disc.

ghost use Rattle.std.specs.Prelude.{◌≡◌, ◌≤◌, ◌<◌, ◌++◌, ◌==◌, not, IfOk, IsErrOf, OnErr};
ghost use Rattle.std.specs.List.{list_any};
ghost use Rattle.udfs_witnesses.specs.Witnesses.{is_mixed, is_telling, ninth, spread, telling_in};

use udfs_lattice::{BlockStore, Fact, GaveUp, ReadFault};

/// Whether one of these bytes is another one than this.
fn has_other(bytes: &[u8], first: u8) -> bool
    ensures { result ≡ list_any (λ x. not (x == first)) bytes.now }
{
    bytes.iter().any(|byte| *byte != first)
}

/// Whether one of these bytes is another one than the first.
fn is_mixed(bytes: &[u8]) -> bool
    ensures { result ≡ is_mixed bytes.now }
{
    if bytes.is_empty() {
        return false;
    }
    has_other(bytes, bytes[0])
}

/// Whether a block is known and its bytes are not all equal.
fn is_telling<B: BlockStore>(blocks: &B, n: u32, room: &mut [u8; 2048]) -> Result<bool, ReadFault>
    ensures value { IfOk result (λ is. B.tells → is ≡ is_telling (B.states blocks.now n)) }
    ensures fails { OnErr result B.fails }
{
    match blocks.lend(n, room)? {
        Fact::Known(block) => Ok(is_mixed(block)),
        _ => Ok(false),
    }
}

/// Where a ninth of a disc begins.
fn ninth(last: u32, i: u32) -> u32
    requires last { last ≤ 4194303 }
    requires i { i ≤ 9 }
    ensures value { result ≡ ninth last i }
    ensures small { result ≤ 4194304 }
{
    i * (last + 1) / 9
}

/// Appends the first known block of a ninth of the disc whose bytes are not all equal.
fn push_telling<B: BlockStore>(
    places: &mut Vec<u32>,
    blocks: &B,
    last: u32,
    i: u32,
) -> Result<(), GaveUp>
    requires last { last ≤ 4194303 }
    requires i { i < 9 }
    ensures value { IfOk result (λ done. B.tells → places.new.items ≡ places.old.items ++ telling_in (B.states blocks.now) last i) }
    ensures fails { IsErrOf result GaveUp.Unread → B.fails }
{
    let mut room = [0; 2048];
    for n in ninth(last, i)..ninth(last, i + 1) {
        let is = is_telling(blocks, n, &mut room)?;
        if is {
            places.push(n)?;
            return Ok(());
        }
    }
    Ok(())
}

/// Appends those of all ninths.
pub(crate) fn push_spread<B: BlockStore>(
    places: &mut Vec<u32>,
    blocks: &B,
    last: u32,
) -> Result<(), GaveUp>
    requires { last ≤ 4194303 }
    ensures value { IfOk result (λ done. B.tells → places.new.items ≡ places.old.items ++ spread (B.states blocks.now) last) }
    ensures fails { IsErrOf result GaveUp.Unread → B.fails }
{
    for i in 0..9 {
        push_telling(places, blocks, last, i)?;
    }
    Ok(())
}
