//! Blocks with histories: that the calls succeed where there is memory, and worked blocks.

mod foreign_patches;

use cube_signs::{block_degrees, check_size};
use kh_types::NoMemory;
use known_links::{HOPF, TREFOIL, diagram_of};
use prime_field::{F2, F3, F5, F7, PrimeField};
use shared_block::{CommitAnswer, SharedBlock, blocks_of};
use std::alloc::Global;
use std::process::Abort;
use std::test::Fail;

/// The blocks of a link over a field, ascending: the quantum degree, how many turns the block
/// takes, and the sum of its homology dimensions.
struct Worked {
    crossings: &'static [[u8; 4]],
    field: u8,
    blocks: &'static [(i16, u64, u32)],
}

/// Twice the turns of a block are its generators, counted by hand, less its dimensions (Knot Atlas,
/// "L2a1" and "3_1"). Over two elements the trefoil has one turn fewer at -7.
const WORKED: &[Worked] = &[
    Worked {
        crossings: HOPF,
        field: 2,
        blocks: &[(-6, 0, 1), (-4, 2, 1), (-2, 2, 1), (0, 0, 1)],
    },
    Worked {
        crossings: HOPF,
        field: 7,
        blocks: &[(-6, 0, 1), (-4, 2, 1), (-2, 2, 1), (0, 0, 1)],
    },
    Worked {
        crossings: TREFOIL,
        field: 2,
        blocks: &[(-9, 0, 1), (-7, 2, 2), (-5, 6, 1), (-3, 4, 1), (-1, 0, 1)],
    },
    Worked {
        crossings: TREFOIL,
        field: 3,
        blocks: &[(-9, 0, 1), (-7, 3, 0), (-5, 6, 1), (-3, 4, 1), (-1, 0, 1)],
    },
    Worked {
        crossings: TREFOIL,
        field: 5,
        blocks: &[(-9, 0, 1), (-7, 3, 0), (-5, 6, 1), (-3, 4, 1), (-1, 0, 1)],
    },
];

#[test]
fn turns_and_finishing_lead_to_the_dimensions(rt: HostRuntime) -> Result<(), Fail> {
    for worked in WORKED {
        match worked.field {
            2 => check_blocks::<F2>(&rt, rt.alloc(), worked)?,
            3 => check_blocks::<F3>(&rt, rt.alloc(), worked)?,
            5 => check_blocks::<F5>(&rt, rt.alloc(), worked)?,
            _ => check_blocks::<F7>(&rt, rt.alloc(), worked)?,
        }
    }
    Ok(())
}

/// Cancels each block by turns, and another one in place.
fn check_blocks<F: PrimeField>(
    rt: &impl Abort,
    alloc: Global,
    worked: &Worked,
) -> Result<(), Fail> {
    let diagram = diagram_of(worked.crossings, 0)?;
    check_size(&diagram)?;
    let degrees = block_degrees(alloc, &diagram)?;
    assert!(rt; degrees.len() == worked.blocks.len());
    for k in 0..degrees.len() {
        let mut turned = SharedBlock::<F>::build(alloc, &diagram, degrees[k])?;
        let mut finished = SharedBlock::<F>::build(alloc, &diagram, degrees[k])?;
        let turns = take_turns(rt, alloc, &mut turned)?;
        finished.finish(alloc)?;
        for block in [&turned, &finished] {
            let (degree, turns, dimensions) = worked.blocks[k];
            assert!(rt; block.degree() == degree);
            assert!(rt; block.version() == turns);
            assert!(rt; total(rt, block) == dimensions);
        }
        assert!(rt; turns == turned.version());
    }
    Ok(())
}

/// Looks, patches and commits until nothing is left: how many turns it took.
fn take_turns<F: PrimeField>(
    rt: &impl Abort,
    alloc: Global,
    block: &mut SharedBlock<F>,
) -> Result<u64, Fail> {
    let mut hint = 0;
    for turns in 0..100u64 {
        let Some(look) = block.look(alloc, hint)? else {
            return Ok(turns);
        };
        hint = look.hint();
        let answer = block.commit(look.patch(alloc)?);
        let version = turns + 1;
        assert!(rt; answer == CommitAnswer::Committed { version });
    }
    Ok(100)
}

/// The sum of the dimensions of a block that is cancelled to zero.
fn total<F: PrimeField>(rt: &impl Abort, block: &SharedBlock<F>) -> u32 {
    assert!(rt; block.is_zero());
    let mut sum = 0u32;
    for i in -3..=3i16 {
        sum = sum.saturating_add(block.dim(i));
    }
    sum
}

#[test]
fn patches_of_other_versions_are_dropped(rt: HostRuntime) -> Result<(), Fail> {
    let alloc = rt.alloc();
    let mut block = block_of_hopf_link(alloc, 2)?;
    let Some(look) = block.look(alloc, 0)? else {
        panic!(rt; "the block at -2 has pivots");
    };
    let patch = look.patch(alloc)?;
    take_turns(&rt, alloc, &mut block)?;
    let stale = block.commit(patch);
    assert!(rt; stale == CommitAnswer::Stale { looked: 0, now: 2 });
    assert!(rt; block.version() == 2 && block.alive() == 1);
    Ok(())
}

/// The block of the Hopf link that stands at this place among its blocks.
fn block_of_hopf_link(alloc: Global, place: usize) -> Result<SharedBlock<F2>, Fail> {
    let diagram = diagram_of(HOPF, 0)?;
    check_size(&diagram)?;
    let mut blocks = blocks_of(alloc, &diagram)?;
    if place < blocks.len() {
        return Ok(blocks.remove(place));
    }
    Err(Fail::from(NoMemory))
}
