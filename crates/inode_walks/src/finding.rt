//! The way to an inode.

ghost use Rattle.std.specs.Prelude.{◌≡◌, ◌≢◌, ◌≤◌, ℕ, ◌∷◌, length, false, None, Some};
ghost use Rattle.std.specs.Prelude.{is_some, IsTrue, IfOk, IfErr, OnOk, OnErr};
ghost use Rattle.tsd_model.specs.Geometry.{block_len};
ghost use Rattle.fs_trees.specs.Names.{Path, name_max, is_path};
ghost use Rattle.fs_trees.specs.InodeTree.{inode_at};
ghost use Rattle.fs_trees.specs.declared.refusal.FsRefusal.TheVariants as no;
ghost use Rattle.fs_laws.specs.Ways.{HoldsWrite};
ghost use Rattle.fs_port.specs.View.{state_of};
ghost use Rattle.fs_port.specs.Calls.{IsValidNow};
ghost use Rattle.fs_client.specs.May.{MayWrite, OnlyLooks};
ghost use Rattle.inode_layout.specs.Block.{inode_of, block_len_of};
ghost use Rattle.inode_layout.specs.Said.{blocks_said, is_directory, said_in};
ghost use Rattle.inode_walks.specs.Asking.{MayAsk, tree_under};
ghost use Rattle.inode_walks.specs.Finding.{StandsAsRead, IsStanding, IsFurther, IsOpenNow, StandsAtPath, IsLookup};
ghost use Rattle.inode_walks.specs.Finding.{block_said, node_tree, not_found, no_file_found, no_directory_found};
ghost use Rattle.fs_client.specs.Changing.{lookup_refusal};

use fs_client::{Client, Names};
use fs_port::Blocks;
use fs_trees::{FsRefusal, Name, Path};
use inode_layout::Inode;
use tsd_model::Data;

/// An inode that was read, and its block.
#[derive(Drop)]
pub struct Found {
    /// Where it stands.
    pub block: u32,

    /// What stands there.
    pub inode: Inode,
}

impl Names for Found {
    ghost blocks = { λ found. blocks_said (inode_of found.inode) };

    fn names(&self, block: u32) -> bool {
        self.inode.names(block)
    }
}

/// The entry that a path speaks of: its directory, its name, and what stands there now.
#[derive(Drop)]
pub struct Lookup<'a> {
    /// The directory.
    pub directory: Found,

    /// The path's last name.
    pub name: &'a [u8],

    /// The block that the directory names so.
    pub old: Option<u32>,
}

/// The inode in the bytes of a block.
fn found_in(block: u32, bytes: Data) -> Result<Found, FsRefusal>
    ensures block { IfOk result (λ found. found.block ≡ block) }
    ensures said { 16 ≤ length bytes → IfOk result (λ found. Some (inode_of found.inode) ≡ said_in (length bytes)
        bytes) }
    ensures kept { IfOk result (λ found. block_len_of found.inode ≡ length bytes) }
    ensures none { 16 ≤ length bytes → OnErr result (said_in (length bytes) bytes ≡ None) }
    ensures refusal { IfErr result (λ e. e ≡ no.NotThisFs) }
{
    match Inode::parse(bytes) {
        Some(inode) => Ok(Found { block, inode }),
        None => Err(FsRefusal::NotThisFs),
    }
}

/// Reads the inode in a block. Only a fault refuses it.
pub fn read_inode<K: Blocks>(client: &Client, disk: &mut K, block: u32) -> Result<Found, FsRefusal>
    requires unspent { (K.view disk.old).spent ≡ false }
    requires valid { K.told → IsValidNow (K.view disk.old) }
    requires may { K.told → MayWrite client.now (K.view disk.old) block }
    requires inode { K.told → IsTrue (is_some (inode_at (K.view disk.old).world block)) }
    ensures block { IfOk result (λ found. found.block ≡ block) }
    ensures says { K.told → IfOk result (λ found. inode_at (K.view disk.old).world block
        ≡ Some (inode_of found.inode)) }
    ensures whole { K.told → IfOk result (λ found. block_len_of found.inode
        ≡ block_len (K.view disk.old).world.geometry) }
    ensures held { K.told → OnOk result (HoldsWrite (state_of (K.view disk.new)) client.now.session block) }
    ensures only { K.told → IfErr result (λ e. e ≡ no.Device) }
    ensures looks { OnlyLooks K.told (K.view disk.old) (K.view disk.new) result }
{
    match client.look(disk, block) {
        Ok(bytes) => found_in(block, bytes),
        Err(refusal) => Err(refusal),
    }
}

/// What a directory names so: its block, or why there is none.
fn block_of_name(found: &Found, name: &Name) -> Result<u32, FsRefusal>
    ensures { result ≡ block_said name.now (inode_of found.now.inode) }
{
    if !found.inode.is_directory() {
        return Err(FsRefusal::NotDir);
    }
    match found.inode.entry(name.as_slice()) {
        Some(block) => Ok(block),
        None => Err(FsRefusal::NoEntry),
    }
}

/// The inode that a directory names so.
fn child<K: Blocks>(
    client: &Client,
    disk: &mut K,
    directory: &Found,
    name: &Name,
) -> Result<Found, FsRefusal>
    requires unspent { (K.view disk.old).spent ≡ false }
    requires valid { K.told → IsValidNow (K.view disk.old) }
    requires session { K.told → IsOpenNow client.now (K.view disk.old) }
    requires stands { K.told → IsStanding client.now (K.view disk.old) directory.now }
    ensures further { K.told → (more : ℕ) → StandsAsRead client.now (K.view disk.old) more directory.now
        → IfOk result (λ found. IsFurther client.now (K.view disk.old) (K.view disk.new) more directory.now name.now
        found) }
    ensures lost { K.told → (more : ℕ) (ns : Path) → StandsAsRead client.now (K.view disk.old) more directory.now
        → IfErr result (λ e. e ≢ no.Device → not_found (node_tree (K.view disk.old) more directory.now)
        (name.now ∷ ns) ≡ Some e) }
    ensures looks { OnlyLooks K.told (K.view disk.old) (K.view disk.new) result }
{
    match block_of_name(directory, name) {
        Ok(block) => read_inode(client, disk, block),
        Err(refusal) => Err(refusal),
    }
}

/// The inode at the end of a way from the root, each block on it read once.
pub fn walk<K: Blocks>(client: &Client, disk: &mut K, names: &[Name]) -> Result<Found, FsRefusal>
    requires may { MayAsk K.told client.now (K.view disk.old) }
    /// promise (with none, refused): What stands at a path, by the tree under the root, with the first refusal that
    /// applies.
    ensures found { K.told → IfOk result (λ found. StandsAtPath client.now (K.view disk.new) names.now found) }
    ensures none { K.told → OnOk result (not_found (tree_under client.now (K.view disk.old)) names.now ≡ None) }
    ensures refused { K.told → IfErr result (λ e. e ≢ no.Device
        → not_found (tree_under client.now (K.view disk.old)) names.now ≡ Some e) }
    /// promise: No world is changed.
    ensures looks { OnlyLooks K.told (K.view disk.old) (K.view disk.new) result }
{
    let mut found = match read_inode(client, disk, client.root) {
        Ok(root) => root,
        Err(refusal) => return Err(refusal),
    };
    for name in names {
        found = match child(client, disk, &found, name) {
            Ok(further) => further,
            Err(refusal) => return Err(refusal),
        };
    }
    Ok(found)
}

/// The file at a path.
#[tactic(none)]
pub fn find_file<K: Blocks>(client: &Client, disk: &mut K, path: &Path) -> Result<Found, FsRefusal>
    requires may { MayAsk K.told client.now (K.view disk.old) }
    ensures found { K.told → IfOk result (StandsAtPath client.now (K.view disk.new) path.now) }
    ensures file { IfOk result (λ found. is_directory (inode_of found.inode) ≡ false) }
    ensures none { K.told → OnOk result (no_file_found (tree_under client.now (K.view disk.old)) path.now ≡ None) }
    ensures refused { K.told → IfErr result (λ e. e ≢ no.Device
        → no_file_found (tree_under client.now (K.view disk.old)) path.now ≡ Some e) }
    ensures looks { OnlyLooks K.told (K.view disk.old) (K.view disk.new) result }
{
    match walk(client, disk, path.as_slice()) {
        Ok(found) => {
            if found.inode.is_directory() {
                Err(FsRefusal::IsDir)
            } else {
                Ok(found)
            }
        }
        Err(refusal) => Err(refusal),
    }
}

/// The directory at a path.
#[tactic(none)]
pub fn find_directory<K: Blocks>(
    client: &Client,
    disk: &mut K,
    names: &[Name],
) -> Result<Found, FsRefusal>
    requires may { MayAsk K.told client.now (K.view disk.old) }
    ensures found { K.told → IfOk result (StandsAtPath client.now (K.view disk.new) names.now) }
    ensures dir { IfOk result (λ found. IsTrue (is_directory (inode_of found.inode))) }
    ensures none { K.told → OnOk result (no_directory_found (tree_under client.now (K.view disk.old)) names.now
        ≡ None) }
    ensures refused { K.told → IfErr result (λ e. e ≢ no.Device
        → no_directory_found (tree_under client.now (K.view disk.old)) names.now ≡ Some e) }
    ensures looks { OnlyLooks K.told (K.view disk.old) (K.view disk.new) result }
{
    match walk(client, disk, names) {
        Ok(found) => {
            if found.inode.is_directory() {
                Ok(found)
            } else {
                Err(FsRefusal::NotDir)
            }
        }
        Err(refusal) => Err(refusal),
    }
}

/// The entry of a path; `at_root` is answered of `/`, which is no entry.
pub fn look_up<'a, K: Blocks>(
    client: &Client,
    disk: &mut K,
    path: &'a Path,
    at_root: FsRefusal,
) -> Result<Lookup<'a>, FsRefusal>
    requires may { MayAsk K.told client.now (K.view disk.old) }
    requires refusal { at_root ≢ no.Device }
    ensures named { IsTrue (is_path path.now) }
    ensures dir { IfOk result (λ lookup. IsTrue (is_directory (inode_of lookup.directory.inode))) }
    ensures short { IfOk result (λ lookup. length lookup.name.now ≤ name_max) }
    /// promise (with none, refused): What stands under a name in the directory of a path, with the first refusal that
    /// applies.
    ensures found { K.told → IfOk result (λ lookup. IsLookup client.now (K.view disk.new) path.now lookup) }
    ensures none { K.told → OnOk result (lookup_refusal (tree_under client.now (K.view disk.old)) path.now at_root
        ≡ None) }
    ensures refused { K.told → IfErr result (λ e. e ≢ no.Device
        → lookup_refusal (tree_under client.now (K.view disk.old)) path.now at_root ≡ Some e) }
    ensures looks { OnlyLooks K.told (K.view disk.old) (K.view disk.new) result }
{
    match path.as_slice() {
        [] => Err(at_root),
        [way @ .., last] => {
            let directory = match find_directory(client, disk, way) {
                Ok(directory) => directory,
                Err(refusal) => return Err(refusal),
            };
            let name = last.as_slice();
            let old = directory.inode.entry(name);
            Ok(Lookup {
                directory,
                name,
                old,
            })
        }
    }
}
