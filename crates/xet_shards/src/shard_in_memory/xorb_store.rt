//! The xorbs of a shard in memory. Their rows are not limited here.

ghost use Rattle.std.specs.Prelude.{◌≡◌, ◌≤◌, ◌↔◌, IsTrue, None, Some, is_some, unwrap_or, option_map, All, length, OnOk, OnErr, IfOk, IfErr};
ghost use Rattle.std.specs.FinMap as finite;
ghost use Rattle.std.specs.HashMap.{spare};
ghost use Rattle.std.specs.Option.{option_or};
ghost use Rattle.xet_base.specs.declared.merklehash.DataHash.{DataHash};
ghost use Rattle.xet_records.specs.XorbRecord.{xorb_row_count, IsXorb, FitsXorb, HasItsChunks, size_of_chunks};
ghost use Rattle.xet_shards.specs.Content.Shard.{AreXorbs, xorb_hash_of};
ghost use Rattle.xet_shards.specs.ShardInMemory.ChunkLookup.{ChunkLocation, IsChunkLookup};
ghost use Rattle.xet_shards.specs.Steps.ChunkLookupSteps.{put_xorb};
ghost use Rattle.xet_shards.specs.Content.Joining.{unless_in, entry};
ghost use Rattle.xet_shards.specs.ShardInMemory.XorbStore.{shown_xorbs, location_in};
ghost use Rattle.xet_shards.specs.Steps.XorbStoreSteps.{IsEntered};

use std::alloc::Global;
use std::collections::{BTreeMap, HashMap};
use std::marker::Model;
use std::rc::Rc;
use xet_base::error::{CoreError, Result};
use xet_base::merklehash::MerkleHash;
use xet_records::rows::{ROW_LIMIT, Row, all_widths};
use xet_records::xorb_structs::{MAX_XORB_BYTES, MDBXorbInfo};

/// Well-formed xorbs, each under its hash, and a location of each of their chunk hashes.
#[derive(Drop)]
pub struct XorbStore {
    content: BTreeMap<MerkleHash, Rc<MDBXorbInfo>>,
    lookup: HashMap<MerkleHash, (Rc<MDBXorbInfo>, u64)>,
}

impl Model for XorbStore {
    ghost use Rattle.xet_shards.specs.Steps.ChunkLookupSteps.{XorbsWithLookup, coded_xorbs_with_lookup};

    ghost Value = { XorbsWithLookup };

    ghost coded = { coded_xorbs_with_lookup };

    ghost use Rattle.xet_shards.specs.Steps.XorbStoreSteps.{xorbs_inside, IsSoundXorbStore};

    ghost view = { xorbs_inside };

    ghost invariant = { IsSoundXorbStore };
}

impl XorbStore {
    /// The empty store.
    pub fn new(alloc: Global) -> XorbStore
        ensures { result ≡ record { xorbs = finite.empty; locations = finite.empty } }
    {
        XorbStore {
            content: BTreeMap::new(alloc),
            lookup: HashMap::new(alloc),
        }
    }

    /// The records by their hashes.
    pub fn content(&self) -> &BTreeMap<MerkleHash, Rc<MDBXorbInfo>>
        ensures entries { shown_xorbs result.now.entries ≡ finite.entries self.now.xorbs }
        ensures xorbs { AreXorbs (shown_xorbs result.now.entries) }
    {
        &self.content
    }

    /// The chunk lookup.
    pub fn lookup(&self) -> &HashMap<MerkleHash, (Rc<MDBXorbInfo>, u64)>
        ensures locations { (q : DataHash)
            → location_in result.now q ≡ finite.get self.now.locations q }
        ensures lookup { IsChunkLookup self.now.xorbs (finite.get self.now.locations) }
        ensures well_formed { (q : DataHash) → (p : ChunkLocation)
            → finite.get self.now.locations q ≡ Some p → IsXorb p.0 }
    {
        &self.lookup
    }

    /// Whether there is a xorb under this hash.
    pub fn contains(&self, xorb_hash: &MerkleHash) -> bool
        ensures { result ≡ is_some (finite.get self.now.xorbs xorb_hash.now) }
    {
        self.content.contains_key(xorb_hash)
    }

    /// The rows of the xorb under this hash, or 0.
    pub fn rows_of(&self, xorb_hash: &MerkleHash) -> u64
        ensures { result
            ≡ unwrap_or (option_map xorb_row_count (finite.get self.now.xorbs xorb_hash.now)) 0 }
    {
        match self.content.get(xorb_hash) {
            Some(xorb) => 1 + u64::from(xorb.metadata.num_entries),
            None => 0,
        }
    }

    /// Inserts a xorb whose hash is new. On `OutOfMemory` nothing changes.
    pub fn append(&mut self, alloc: Global, xorb: Rc<MDBXorbInfo>) -> Result<()>
        requires absent { finite.get self.old.xorbs (xorb_hash_of xorb.value) ≡ None }
        requires well_formed { IsXorb xorb.value }
        ensures ok { OnOk result (self.new.xorbs ≡ put_xorb self.old.xorbs xorb.value) }
        ensures err { OnErr result (self.new ≡ self.old) }
        ensures causes { IfErr result (λ e. e ≡ CoreError.OutOfMemory) }
    {
        let owner = xorb.clone()?;
        let owners = owners_of(alloc, &xorb)?;
        self.lookup.reserve(owners.len())?;
        // The last call that can fail, and the first that changes the store.
        self.content.insert(xorb.metadata.xorb_hash, owner)?;
        enter_chunks(&mut self.lookup, xorb.as_ref(), owners);
        Ok(())
    }

    /// Inserts or replaces a xorb; replacing rebuilds the lookup. On `OutOfMemory` nothing changes.
    pub fn put(&mut self, alloc: Global, xorb: Rc<MDBXorbInfo>) -> Result<()>
        requires { IsXorb xorb.value }
        ensures ok { OnOk result (self.new.xorbs ≡ put_xorb self.old.xorbs xorb.value) }
        ensures err { OnErr result (self.new ≡ self.old) }
        ensures causes { IfErr result (λ e. e ≡ CoreError.OutOfMemory) }
    {
        if !self.contains(&xorb.metadata.xorb_hash) {
            return self.append(alloc, xorb);
        }
        // Other xorbs may have chunks of the replaced one.
        let mut rebuilt = XorbStore::new(alloc);
        rebuilt.append(alloc, xorb)?;
        rebuilt.append_missing(alloc, self.content(), &XorbStore::new(alloc))?;
        *self = rebuilt;
        Ok(())
    }

    /// Inserts the xorbs whose hashes are neither in this store nor in `except`. On `OutOfMemory`
    /// only some are inserted.
    fn append_missing(
        &mut self,
        alloc: Global,
        others: &BTreeMap<MerkleHash, Rc<MDBXorbInfo>>,
        except: &XorbStore,
    ) -> Result<()>
        requires { AreXorbs (shown_xorbs others.now.entries) }
        ensures ok { OnOk result ((q : DataHash) → finite.get self.new.xorbs q
            ≡ option_or (finite.get self.old.xorbs q)
            (unless_in except.now.xorbs (entry (shown_xorbs others.now.entries)) q)) }
        ensures causes { IfErr result (λ e. e ≡ CoreError.OutOfMemory) }
    {
        for (xorb_hash, xorb) in others {
            if !self.contains(xorb_hash) && !except.contains(xorb_hash) {
                self.append(alloc, xorb.clone()?)?;
            }
        }
        Ok(())
    }

    // The chunks of the xorbs that [`XorbStore::append_missing`] inserts.
    fn missing_chunks(
        &self,
        others: &BTreeMap<MerkleHash, Rc<MDBXorbInfo>>,
        except: &XorbStore,
    ) -> usize {
        let mut chunks: usize = 0;
        for (xorb_hash, xorb) in others {
            if !self.contains(xorb_hash) && !except.contains(xorb_hash) {
                chunks = chunks.saturating_add(xorb.chunks.len());
            }
        }
        chunks
    }

    fn reserve(&mut self, chunks: usize) -> Result<()>
        ensures same { self.new ≡ self.old }
        ensures causes { IfErr result (λ e. e ≡ CoreError.OutOfMemory) }
    {
        self.lookup.reserve(chunks)?;
        Ok(())
    }

    /// A copy, or `OutOfMemory`.
    pub fn try_clone(&self) -> Result<XorbStore>
        ensures ok { IfOk result (λ t. t ≡ self.now) }
        ensures causes { IfErr result (λ e. e ≡ CoreError.OutOfMemory) }
    {
        Ok(XorbStore {
            content: self.content.clone()?,
            lookup: self.lookup.clone()?,
        })
    }

    /// The xorbs of both; of two with one hash, that of `other`. Or `OutOfMemory`.
    pub fn union(&self, alloc: Global, other: &XorbStore) -> Result<XorbStore>
        ensures ok { IfOk result (λ t. (q : DataHash) → finite.get t.xorbs q
            ≡ option_or (finite.get other.now.xorbs q) (finite.get self.now.xorbs q)) }
        ensures causes { IfErr result (λ e. e ≡ CoreError.OutOfMemory) }
    {
        let mut joined = other.try_clone()?;
        joined.append_missing(alloc, self.content(), &XorbStore::new(alloc))?;
        Ok(joined)
    }

    /// The xorbs of `other` whose hashes this store does not have, or `OutOfMemory`.
    pub fn difference(&self, alloc: Global, other: &XorbStore) -> Result<XorbStore>
        ensures ok { IfOk result (λ t. (q : DataHash) → finite.get t.xorbs q
            ≡ unless_in self.now.xorbs (finite.get other.now.xorbs) q) }
        ensures causes { IfErr result (λ e. e ≡ CoreError.OutOfMemory) }
    {
        let mut rest = XorbStore::new(alloc);
        rest.reserve(rest.missing_chunks(other.content(), self))?;
        rest.append_missing(alloc, other.content(), self)?;
        Ok(rest)
    }
}

// A reference for each chunk.
fn owners_of(alloc: Global, xorb: &Rc<MDBXorbInfo>) -> Result<Vec<Rc<MDBXorbInfo>>>
    ensures count { IfOk result (λ owners. length owners.items ≡ length xorb.now.value.chunks) }
    ensures owners { IfOk result
        (λ owners. All (λ owner. owner.value ≡ xorb.now.value) owners.items) }
    ensures causes { IfErr result (λ e. e ≡ CoreError.OutOfMemory) }
{
    let mut owners = Vec::with_capacity(alloc, xorb.chunks.len())?;
    for _chunk in 0..xorb.chunks.len() {
        owners.push(xorb.clone()?)?;
    }
    Ok(owners)
}

fn enter_chunks(
    lookup: &mut HashMap<MerkleHash, (Rc<MDBXorbInfo>, u64)>,
    xorb: &MDBXorbInfo,
    mut owners: Vec<Rc<MDBXorbInfo>>,
)
    requires room { length owners.items ≤ spare lookup.old }
    requires count { length owners.items ≡ length xorb.now.chunks }
    requires owners { All (λ owner. owner.value ≡ xorb.now) owners.items }
    ensures { IsEntered (location_in lookup.old) (location_in lookup.new) xorb.now
        (length xorb.now.chunks) }
{
    let mut index = 0;
    for chunk in xorb.chunks.as_slice() {
        // There is an owner for each chunk and room for each entry.
        let owner = owners.pop().unwrap();
        let inserted: std::result::Result<_, _> = lookup.insert(chunk.chunk_hash, (owner, index));
        inserted.unwrap();
        index += 1;
    }
}

/// Whether a record can be in a store.
pub fn is_well_formed(xorb: &MDBXorbInfo) -> bool
    ensures { IsTrue result ↔ IsXorb xorb.now }
{
    record_widths(xorb);
    let metadata = xorb.metadata;
    !metadata.is_bookend()
        && xorb.chunks.len() as u64 == u64::from(metadata.num_entries)
        && u64::from(metadata.num_entries) < ROW_LIMIT
        && sum_of_chunks(xorb) <= MAX_XORB_BYTES
}

fn sum_of_chunks(xorb: &MDBXorbInfo) -> u64
    requires { HasItsChunks xorb.now }
    ensures { result ≡ size_of_chunks xorb.now }
{
    prove!(xorb.chunks.len() as u64 == u64::from(xorb.metadata.num_entries));
    let mut bytes = 0;
    for chunk in xorb.chunks.as_slice() {
        bytes += u64::from(chunk.unpacked_segment_bytes);
    }
    bytes
}

// Does nothing: the numbers of a record fit their widths.
fn record_widths(xorb: &MDBXorbInfo)
    ensures { FitsXorb xorb.now }
{
    let metadata = xorb.metadata;
    metadata.widths();
    all_widths(&xorb.chunks);
}
