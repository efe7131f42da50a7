//! The requests of a file system.

ghost use Rattle.std.specs.Prelude.{◌≡◌, false, IfOk};
ghost use Rattle.tsd_model.specs.declared.replies.Reply.TheVariants as reply;
ghost use Rattle.fs_port.specs.Calls.{IsAskCarriedOut};
ghost use Rattle.fs_client.specs.Asks.{refusal_of, bytes_replied, done_replied, gone_replied, blocks_replied};
ghost use Rattle.fs_client.specs.Asks.{targets_replied, AsksOnce};

use fs_port::Blocks;
use fs_trees::FsRefusal;
use tsd_model::{BlockList, Cap, Data, Hint, Reply, Request, Rule, Shown};

/// Who asks: a session, which shows a capability at the root alone.
#[derive(Clone, Copy)]
pub struct Client {
    /// The block that the tree hangs from.
    pub root: u32,

    /// What is shown there.
    pub cap: Cap,

    /// The session.
    pub session: u32,
}

/// What a refusal of the disk is here. No other is given to a request that is granted.
fn refusal_of(rule: Rule) -> FsRefusal
    ensures { result ≡ refusal_of rule }
{
    match rule {
        Rule::Full { free, wanted } => FsRefusal::Full { free, wanted },
        Rule::PointersFull { held, max } => FsRefusal::PointersFull { held, max },
        _ => FsRefusal::NotThisFs,
    }
}

/// The bytes of a reply, or what it is where they were wanted.
fn bytes_replied(reply: Reply) -> Result<Data, FsRefusal>
    ensures { result ≡ bytes_replied reply }
{
    match reply {
        Reply::Bytes(bytes) => Ok(bytes),
        Reply::Refused(rule) => Err(refusal_of(rule)),
        _ => Err(FsRefusal::NotThisFs),
    }
}

/// Whether it is done, or what the reply is where that was wanted.
fn done_replied(reply: Reply) -> Result<(), FsRefusal>
    ensures { result ≡ done_replied reply }
{
    match reply {
        Reply::Done => Ok(()),
        Reply::Refused(rule) => Err(refusal_of(rule)),
        _ => Err(FsRefusal::NotThisFs),
    }
}

/// How many blocks are gone, or what the reply is where that was wanted.
fn gone_replied(reply: Reply) -> Result<u32, FsRefusal>
    ensures { result ≡ gone_replied reply }
{
    match reply {
        Reply::Gone(gone) => Ok(gone),
        Reply::Refused(rule) => Err(refusal_of(rule)),
        _ => Err(FsRefusal::NotThisFs),
    }
}

/// The new blocks of a reply, or what it is where they were wanted.
fn blocks_replied(reply: Reply) -> Result<BlockList, FsRefusal>
    ensures { result ≡ blocks_replied reply }
{
    match reply {
        Reply::Blocks(blocks) => Ok(blocks),
        Reply::Refused(rule) => Err(refusal_of(rule)),
        _ => Err(FsRefusal::NotThisFs),
    }
}

/// The targets of a reply, or what it is where they were wanted.
fn targets_replied(reply: Reply) -> Result<BlockList, FsRefusal>
    ensures { result ≡ targets_replied reply }
{
    match reply {
        Reply::Targets(targets) => Ok(targets),
        Reply::Refused(rule) => Err(refusal_of(rule)),
        _ => Err(FsRefusal::NotThisFs),
    }
}

impl Client {
    ghost use Rattle.fs_client.specs.Client.{shown_at, read_by, write_by, link_by, unlink_by, alloc_by, list_by};

    /// What is shown at a block.
    fn shown(&self, block: u32) -> Shown
        ensures { result ≡ shown_at self.now block }
    {
        if block == self.root {
            Shown::Key(self.cap)
        } else {
            Shown::Nothing
        }
    }

    /// The bytes of a block.
    pub fn read<K: Blocks>(&self, disk: &mut K, block: u32) -> Result<Data, FsRefusal>
        requires unspent { (K.view disk.old).spent ≡ false }
        /// promise (with once): What the reply holds by the rules of the disk, or the disk's refusal with nothing
        /// changed; a crash leaves the world before or after it. So too of `write`, `alloc`, `link`, `unlink` and
        /// `list`.
        ensures step { K.told → IfOk result (λ bytes. IsAskCarriedOut (K.view disk.old) (K.view disk.new)
            (read_by self.now block) (reply.Bytes bytes)) }
        ensures once { AsksOnce K.told (K.view disk.old) (K.view disk.new) (read_by self.now block) result }
    {
        let request = Request::Read {
            session: self.session,
            block,
            shown: self.shown(block),
        };
        match disk.ask(&request) {
            Ok(reply) => bytes_replied(reply),
            Err(_) => Err(FsRefusal::Device),
        }
    }

    /// Sets a block's bytes; zeros follow them to the block's end.
    pub fn write<K: Blocks>(&self, disk: &mut K, block: u32, bytes: Data) -> Result<(), FsRefusal>
        requires unspent { (K.view disk.old).spent ≡ false }
        ensures step { K.told → IfOk result (λ _. IsAskCarriedOut (K.view disk.old) (K.view disk.new)
            (write_by self.now block bytes) (reply.Done)) }
        ensures once { AsksOnce K.told (K.view disk.old) (K.view disk.new) (write_by self.now block bytes) result }
    {
        let request = Request::Write {
            session: self.session,
            block,
            shown: self.shown(block),
            bytes,
        };
        match disk.ask(&request) {
            Ok(reply) => done_replied(reply),
            Err(_) => Err(FsRefusal::Device),
        }
    }

    /// Adds a pointer.
    pub fn link<K: Blocks>(&self, disk: &mut K, source: u32, target: u32) -> Result<(), FsRefusal>
        requires unspent { (K.view disk.old).spent ≡ false }
        ensures step { K.told → IfOk result (λ _. IsAskCarriedOut (K.view disk.old) (K.view disk.new)
            (link_by self.now source target) (reply.Done)) }
        ensures once { AsksOnce K.told (K.view disk.old) (K.view disk.new) (link_by self.now source target) result }
    {
        let request = Request::Create {
            session: self.session,
            source,
            shown: self.shown(source),
            target,
        };
        match disk.ask(&request) {
            Ok(reply) => done_replied(reply),
            Err(_) => Err(FsRefusal::Device),
        }
    }

    /// Deletes a pointer, and with it the blocks that nothing leads to any more.
    pub fn unlink<K: Blocks>(
        &self,
        disk: &mut K,
        source: u32,
        target: u32,
    ) -> Result<u32, FsRefusal>
        requires unspent { (K.view disk.old).spent ≡ false }
        ensures step { K.told → IfOk result (λ gone. IsAskCarriedOut (K.view disk.old) (K.view disk.new)
            (unlink_by self.now source target) (reply.Gone gone)) }
        ensures once { AsksOnce K.told (K.view disk.old) (K.view disk.new) (unlink_by self.now source target) result }
    {
        let request = Request::Delete {
            session: self.session,
            source,
            shown: self.shown(source),
            target,
        };
        match disk.ask(&request) {
            Ok(reply) => gone_replied(reply),
            Err(_) => Err(FsRefusal::Device),
        }
    }

    /// Takes free blocks near the source, and points to them from there.
    pub fn alloc<K: Blocks>(
        &self,
        disk: &mut K,
        source: u32,
        count: u32,
    ) -> Result<BlockList, FsRefusal>
        requires unspent { (K.view disk.old).spent ≡ false }
        ensures step { K.told → IfOk result (λ blocks. IsAskCarriedOut (K.view disk.old) (K.view disk.new)
            (alloc_by self.now source count) (reply.Blocks blocks)) }
        ensures once { AsksOnce K.told (K.view disk.old) (K.view disk.new) (alloc_by self.now source count) result }
    {
        let request = Request::Alloc {
            session: self.session,
            source,
            shown: self.shown(source),
            hint: Hint::At(source),
            count,
        };
        match disk.ask(&request) {
            Ok(reply) => blocks_replied(reply),
            Err(_) => Err(FsRefusal::Device),
        }
    }

    /// The least targets of a block's pointers from a number on, at most 64.
    pub fn list<K: Blocks>(
        &self,
        disk: &mut K,
        source: u32,
        start: u32,
    ) -> Result<BlockList, FsRefusal>
        requires unspent { (K.view disk.old).spent ≡ false }
        ensures step { K.told → IfOk result (λ targets. IsAskCarriedOut (K.view disk.old) (K.view disk.new)
            (list_by self.now source start) (reply.Targets targets)) }
        ensures once { AsksOnce K.told (K.view disk.old) (K.view disk.new) (list_by self.now source start) result }
    {
        let request = Request::List {
            session: self.session,
            source,
            shown: self.shown(source),
            start,
        };
        match disk.ask(&request) {
            Ok(reply) => targets_replied(reply),
            Err(_) => Err(FsRefusal::Device),
        }
    }
}
