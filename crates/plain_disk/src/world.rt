//! The disk as a plain value.

ghost use Rattle.std.specs.Prelude.{◌≡◌, ◌+◌, ◌-◌, ◌*◌, ◌++◌, ◌<◌, ◌≤◌, cond, not};
ghost use Rattle.std.specs.Prelude.{filter, length, map, replicate, Some, None, IfOk, IfSome, MatchOption};
ghost use Rattle.std.specs.Prelude.{OnOk, OnErr};
ghost use Rattle.tsd_model.specs.Geometry.{IsLawful, block_len};
ghost use Rattle.tsd_model.specs.Pairs.{holds};
ghost use Rattle.tsd_model.specs.Records.{kept, upgraded, upgraded_record};
ghost use Rattle.tsd_model.specs.Reach.{blocks_that, restricted};
ghost use Rattle.tsd_model.specs.Run.{fresh_world};
ghost use Rattle.tsd_model.specs.Step.{filled, with_contents, with_pointer, without_pointer, with_caps};
ghost use Rattle.tsd_model.specs.Valid.{IsSized};
ghost use Rattle.tsd_model.specs.World.{contents, is_live, is_free, is_primary, free_count, has_number};

use crate::graph::has_number;
use crate::pairs::{add_pair, pairs_without};
use std::alloc::{AllocError, Global};
use std::marker::Model;
use tsd_model::records::{kept, upgraded_record};
use tsd_model::{CapList, CapPair, Geometry, NoMemory, Record};

/// The bytes of one live block.
#[derive(Debug, Drop)]
pub(crate) struct Block {
    bytes: Vec<u8>,
}

impl Model for Block {
    ghost use Rattle.std.specs.Prelude.{List, ℕ};

    ghost Value = { List ℕ };

    ghost view = { λ b. b.bytes.items };
}

impl Block {
    /// A block of so many zeros.
    pub(crate) fn zeros(alloc: Global, len: usize) -> Result<Block, AllocError>
        ensures { IfOk result (λ b. b ≡ replicate len 0) }
    {
        let bytes = vec![in alloc; 0u8; len]?;
        Ok(Block { bytes })
    }

    /// These bytes, then zeros up to this length.
    pub(crate) fn filled(alloc: Global, len: usize, bytes: &[u8]) -> Result<Block, AllocError>
        requires { length bytes.now ≤ len }
        ensures { IfOk result (λ b. b ≡ filled len bytes.now) }
    {
        let mut filled = bytes.to_vec(alloc)?;
        filled.resize(len, 0)?;
        Ok(Block { bytes: filled })
    }

    /// A block of these bytes.
    pub(crate) fn from_slice(alloc: Global, bytes: &[u8]) -> Result<Block, AllocError>
        ensures { IfOk result (λ b. b ≡ bytes.now) }
    {
        let bytes = bytes.to_vec(alloc)?;
        Ok(Block { bytes })
    }

    /// The bytes.
    pub(crate) fn as_slice(&self) -> &[u8]
        ensures { result.now ≡ self.now }
    {
        self.bytes.as_slice()
    }
}

/// A world: which blocks are live and what they contain, the pointers, and what is kept of the capabilities.
#[derive(Drop)]
pub struct World {
    geometry: Geometry,
    version: u32,
    blocks: Vec<Option<Block>>,
    pairs: Vec<(u32, u32)>,
    records: Vec<Record>,
}

impl Model for World {
    ghost use Rattle.tsd_model.specs.World.{World as Value_of};
    ghost use Rattle.tsd_model.specs.Valid.{IsSized};

    ghost Value = { Value_of };

    ghost view = { λ w. record {
      geometry = w.geometry;
      version = w.version;
      blocks = w.blocks.items;
      pairs = w.pairs.items;
      records = w.records.items;
    } };

    ghost invariant = { λ w. IsSized (record {
      geometry = w.geometry;
      version = w.version;
      blocks = w.blocks.items;
      pairs = w.pairs.items;
      records = w.records.items;
    }) };
}

impl World {
    /// The world of a disk that was just formatted, in version 1: the primary blocks are live and contain zeros, there
    /// are no pointers, and primary block b has the capabilities at index b.
    pub fn fresh(alloc: Global, geometry: &Geometry, caps: &CapList) -> Result<World, NoMemory>
        requires lawful { IsLawful geometry.now }
        requires each { length caps.now ≡ geometry.now.primaries }
        /// promise: The world of a new disk.
        ensures { IfOk result (λ w. w ≡ fresh_world geometry.now caps.now) }
    {
        let blocks = fresh_blocks(alloc, geometry)?;
        let records = fresh_records(alloc, caps.as_slice())?;
        Ok(World {
            geometry: *geometry,
            version: 1,
            blocks,
            pairs: Vec::new(alloc),
            records,
        })
    }

    /// How large it is.
    pub fn geometry(&self) -> Geometry
        ensures value { result ≡ self.now.geometry }
        ensures sized { IsSized self.now }
    {
        self.geometry
    }

    /// 1, or 2 where capabilities are kept as digests.
    pub fn version(&self) -> u32
        ensures { result ≡ self.now.version }
    {
        self.version
    }

    /// The bytes of a block, None exactly where it is free or there is no such block.
    pub fn bytes_of(&self, block: u32) -> Option<&[u8]>
        ensures value { MatchOption result (contents self.now block ≡ None) (λ bytes. contents self.now block
            ≡ Some bytes.now) }
        ensures full { IfSome result (λ bytes. length bytes.now ≡ block_len self.now.geometry) }
        ensures fits { IfSome result (λ bytes. length bytes.now ≤ 4096) }
    {
        match self.blocks.get(block as usize) {
            Some(Some(bytes)) => Some(bytes.as_slice()),
            _ => None,
        }
    }

    /// The pointers as pairs (source, target), ascending.
    pub fn pairs(&self) -> &[(u32, u32)]
        ensures value { result.now ≡ self.now.pairs }
        ensures room { length self.now.pairs ≤ self.now.geometry.slots }
    {
        self.pairs.as_slice()
    }

    /// What is kept of the capabilities, by primary block.
    pub fn records(&self) -> &[Record]
        ensures { result.now ≡ self.now.records }
    {
        self.records.as_slice()
    }

    /// Whether a block is live.
    pub fn is_live(&self, block: u32) -> bool
        ensures { result ≡ is_live self.now block }
    {
        matches!(self.blocks.get(block as usize), Some(Some(_)))
    }

    /// Whether a block of the disk is free.
    pub fn is_free(&self, block: u32) -> bool
        ensures { result ≡ is_free self.now block }
    {
        matches!(self.blocks.get(block as usize), Some(None))
    }

    /// How many pointers are held.
    pub fn pair_count(&self) -> u32
        ensures { result ≡ length self.now.pairs }
    {
        self.pairs.len() as u32
    }

    /// How many bytes a block has.
    pub fn block_len(&self) -> usize
        ensures value { result ≡ block_len self.now.geometry }
        ensures fits { result ≤ 4096 }
    {
        512 * self.geometry.sectors as usize
    }

    /// Whether this is the number of a primary block.
    pub fn is_primary(&self, block: u32) -> bool
        ensures { result ≡ is_primary self.now block }
    {
        block < self.geometry.primaries
    }

    /// How many blocks are free.
    pub fn free_count(&self) -> u32
        ensures { result ≡ free_count self.now }
    {
        self.blocks.iter().filter(|block| block.is_none()).count() as u32
    }

    /// Whether a pointer is held.
    pub fn holds(&self, source: u32, target: u32) -> bool
        ensures { result ≡ holds self.now.pairs source target }
    {
        self.pairs
            .iter()
            .any(|pair| pair.0 == source && pair.1 == target)
    }
}

impl World {
    /// The same world.
    pub(crate) fn copy(&self, alloc: Global) -> Result<World, AllocError>
        ensures { IfOk result (λ w. w ≡ self.now) }
    {
        Ok(World {
            geometry: self.geometry,
            version: self.version,
            blocks: copy_blocks(alloc, self.blocks.as_slice())?,
            pairs: self.pairs.as_slice().to_vec(alloc)?,
            records: self.records.as_slice().to_vec(alloc)?,
        })
    }

    /// The same world in version 2: of each capability only the digest is kept.
    pub fn upgraded(alloc: Global, world: &World) -> Result<World, NoMemory>
        /// promise: The world with digests in place of its capabilities.
        ensures { IfOk result (λ w. w ≡ upgraded world.now) }
    {
        Ok(World {
            geometry: world.geometry,
            version: 2,
            blocks: copy_blocks(alloc, world.blocks.as_slice())?,
            pairs: world.pairs.as_slice().to_vec(alloc)?,
            records: upgraded_records(alloc, world.records.as_slice())?,
        })
    }

    /// A block becomes live, if it wasn't, and contains these bytes.
    pub(crate) fn set_block(&mut self, block: u32, bytes: Block)
        requires { length bytes ≡ block_len self.old.geometry }
        ensures { self.new ≡ with_contents self.old block bytes }
    {
        let index = block as usize;
        if index < self.blocks.len() {
            self.blocks[index] = Some(bytes);
        }
    }

    /// Adds a pointer. Without memory the world stays.
    pub(crate) fn add_pointer(&mut self, source: u32, target: u32) -> Result<(), AllocError>
        requires { length self.old.pairs < self.old.geometry.slots }
        ensures ok { OnOk result (self.new ≡ with_pointer self.old source target) }
        ensures err { OnErr result (self.new ≡ self.old) }
    {
        add_pair(&mut self.pairs, source, target)
    }

    /// What is kept for a primary block becomes this.
    pub(crate) fn set_record(&mut self, block: u32, kept: Record)
        ensures { self.new ≡ with_caps self.old block kept }
    {
        let index = block as usize;
        if index < self.records.len() {
            self.records[index] = kept;
        }
    }

    /// The world without a pointer. What hung on it is still there.
    pub(crate) fn without_pointer(
        &self,
        alloc: Global,
        source: u32,
        target: u32,
    ) -> Result<World, AllocError>
        ensures { IfOk result (λ w. w ≡ without_pointer self.now source target) }
    {
        Ok(World {
            geometry: self.geometry,
            version: self.version,
            blocks: copy_blocks(alloc, self.blocks.as_slice())?,
            pairs: pairs_without(alloc, self.pairs.as_slice(), source, target)?,
            records: self.records.as_slice().to_vec(alloc)?,
        })
    }

    /// The world on the listed blocks, or on all others, with the pairs from them.
    pub(crate) fn restricted(
        &self,
        alloc: Global,
        listed: &[u32],
        keep_listed: bool,
    ) -> Result<World, AllocError>
        ensures { IfOk result (λ w. w ≡ restricted self.now (λ b. cond keep_listed (has_number listed.now b)
            (not (has_number listed.now b)))) }
    {
        Ok(World {
            geometry: self.geometry,
            version: self.version,
            blocks: self.blocks_that(alloc, listed, keep_listed)?,
            pairs: pairs_from(alloc, self.pairs.as_slice(), listed, keep_listed)?,
            records: self.records.as_slice().to_vec(alloc)?,
        })
    }

    #[tactic(auto, using(tsd_model::proofs::RangeLaws::map_range_next))]
    fn blocks_that(
        &self,
        alloc: Global,
        listed: &[u32],
        keep_listed: bool,
    ) -> Result<Vec<Option<Block>>, AllocError>
        ensures { IfOk result (λ v. v.items ≡ blocks_that self.now (λ b. cond keep_listed (has_number listed.now b)
            (not (has_number listed.now b)))) }
    {
        let mut blocks = Vec::new(alloc);
        let count = self.geometry().blocks;
        for block in 0..count {
            let kept = if keeps(listed, keep_listed, block) {
                self.bytes_of(block)
            } else {
                None
            };
            blocks.push(match kept {
                None => None,
                Some(bytes) => Some(Block::from_slice(alloc, bytes)?),
            })?;
        }
        Ok(blocks)
    }
}

fn keeps(listed: &[u32], keep_listed: bool, block: u32) -> bool
    ensures { result ≡ cond keep_listed (has_number listed.now block) (not (has_number listed.now block)) }
{
    if keep_listed {
        has_number(listed, block)
    } else {
        !has_number(listed, block)
    }
}

/// The pairs whose source is listed, or isn't.
fn pairs_from(
    alloc: Global,
    pairs: &[(u32, u32)],
    listed: &[u32],
    keep_listed: bool,
) -> Result<Vec<(u32, u32)>, AllocError>
    ensures { IfOk result (λ v. v.items ≡ filter (λ e. cond keep_listed (has_number listed.now e.0)
        (not (has_number listed.now e.0))) pairs.now) }
{
    pairs
        .iter()
        .copied()
        .filter(|pair| keeps(listed, keep_listed, pair.0))
        .collect(alloc)
}

fn copy_blocks(alloc: Global, blocks: &[Option<Block>]) -> Result<Vec<Option<Block>>, AllocError>
    ensures { IfOk result (λ v. v.items ≡ blocks.now) }
{
    let mut copy = Vec::new(alloc);
    for block in blocks {
        copy.push(match block {
            None => None,
            Some(block) => Some(Block::from_slice(alloc, block.as_slice())?),
        })?;
    }
    Ok(copy)
}

fn upgraded_records(alloc: Global, records: &[Record]) -> Result<Vec<Record>, AllocError>
    ensures { IfOk result (λ v. v.items ≡ map upgraded_record records.now) }
{
    records
        .iter()
        .map(|held| upgraded_record(held))
        .collect(alloc)
}

fn fresh_blocks(alloc: Global, geometry: &Geometry) -> Result<Vec<Option<Block>>, AllocError>
    requires { IsLawful geometry.now }
    ensures { IfOk result (λ v. v.items ≡ replicate geometry.now.primaries
        (Some (replicate (block_len geometry.now) 0))
        ++ replicate (geometry.now.blocks - geometry.now.primaries) None) }
{
    let mut blocks = zero_blocks(alloc, geometry.primaries, 512 * geometry.sectors as usize)?;
    let free = geometry.blocks - geometry.primaries;
    for block in 0..free {
        blocks.push(None)?;
    }
    Ok(blocks)
}

fn zero_blocks(alloc: Global, count: u32, len: usize) -> Result<Vec<Option<Block>>, AllocError>
    ensures { IfOk result (λ v. v.items ≡ replicate count (Some (replicate len 0))) }
{
    let mut blocks = Vec::new(alloc);
    for block in 0..count {
        blocks.push(Some(Block::zeros(alloc, len)?))?;
    }
    Ok(blocks)
}

fn fresh_records(alloc: Global, caps: &[CapPair]) -> Result<Vec<Record>, AllocError>
    ensures { IfOk result (λ v. v.items ≡ map (kept 1) caps.now) }
{
    caps.iter().map(|pair| kept(1, pair)).collect(alloc)
}
