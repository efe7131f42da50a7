//! Links by number, of which few are set: memory is touched up to the last one that was.

ghost use Rattle.std.specs.Prelude.{◌≡◌, ◌≤◌, ◌<◌, ◌^◌, length, slice_index_or, slice_set, replicate, [], true, false};
ghost use Rattle.std.specs.Prelude.{vec_capacity, IfOk, IfErr};
ghost use Rattle.pointer_table.specs.Links.{unset_link, links_of, AreKept};
ghost use Rattle.pointer_table.specs.Threads.{no_link};

use crate::fault::TableFault;
use std::alloc::Global;
use std::marker::Model;

/// The link that leads nowhere.
pub(crate) const NO_LINK: u32 = 4_294_967_295;

/// So many links, all there from the start. Room for all of them is taken when they are made, and no memory behind the
/// last one that was ever set is touched, so links that hold nothing cost nothing.
#[derive(Drop)]
pub(crate) struct Links {
    /// The links up to the last that was set. There is room for all.
    items: Vec<u32>,

    /// How many links there are.
    count: usize,

    /// What a link is that was never set: whether it leads to the next number, the last one nowhere, or all nowhere.
    in_row: bool,
}

impl Model for Links {
    ghost use Rattle.std.specs.Prelude.{List, ℕ, vec_capacity};
    ghost use Rattle.pointer_table.specs.Links.{links_of, AreKept};

    ghost Value = { List ℕ };

    ghost view = { λ l. links_of l.in_row l.count l.items.items };

    ghost invariant = { λ l. AreKept l.count l.items.items (vec_capacity l.items) };
}

/// A link that was never set.
fn unset_link(in_row: bool, count: usize, position: usize) -> u32
    requires inside { position < count }
    requires few { count < 2 ^ 32 }
    ensures { result ≡ unset_link in_row count position }
{
    if in_row && position + 1 < count {
        (position + 1) as u32
    } else {
        NO_LINK
    }
}

/// Puts links that were never set behind the ones in memory, until this one is among them.
fn touch(items: &mut Vec<u32>, in_row: bool, count: usize, position: usize)
    requires kept { AreKept count items.old.items (vec_capacity items.old) }
    requires inside { position < count }
    ensures kept { AreKept count items.new.items (vec_capacity items.new) }
    ensures same { links_of in_row count items.new.items ≡ links_of in_row count items.old.items }
    ensures touched { position < length items.new.items }
{
    while items.len() <= position {
        let link = unset_link(in_row, count, items.len());
        items.push_reserved(link);
    }
}

impl Links {
    /// So many links that lead nowhere.
    pub(crate) fn nowhere(alloc: Global, count: usize) -> Result<Links, TableFault>
        requires { count < 2 ^ 32 }
        ensures links { IfOk result (λ l. l ≡ replicate count no_link) }
        ensures err { IfErr result (λ e. e ≡ TableFault.NoMemory) }
    {
        Links::of(alloc, count, false)
    }

    /// So many links, each of which leads to the next number, and the last one nowhere.
    pub(crate) fn row(alloc: Global, count: usize) -> Result<Links, TableFault>
        requires { count < 2 ^ 32 }
        ensures links { IfOk result (λ l. l ≡ links_of true count []) }
        ensures len { IfOk result (λ l. length l ≡ count) }
        ensures err { IfErr result (λ e. e ≡ TableFault.NoMemory) }
    {
        Links::of(alloc, count, true)
    }

    /// So many links that were never set.
    fn of(alloc: Global, count: usize, in_row: bool) -> Result<Links, TableFault>
        requires { count < 2 ^ 32 }
        ensures links { IfOk result (λ l. l ≡ links_of in_row count []) }
        ensures len { IfOk result (λ l. length l ≡ count) }
        ensures nowhere { in_row ≡ false → IfOk result (λ l. l ≡ replicate count no_link) }
        ensures err { IfErr result (λ e. e ≡ TableFault.NoMemory) }
    {
        match Vec::with_capacity(alloc, count) {
            Ok(items) => Ok(Links {
                items,
                count,
                in_row,
            }),
            Err(_) => Err(TableFault::NoMemory),
        }
    }

    /// How many links there are.
    pub(crate) fn len(&self) -> usize
        ensures { result ≡ length self.now }
    {
        self.count
    }

    /// A link.
    pub(crate) fn get(&self, position: usize) -> u32
        requires { position < length self.now }
        ensures { result ≡ slice_index_or self.now position 0 }
    {
        if position < self.items.len() {
            self.items[position]
        } else {
            unset_link(self.in_row, self.count, position)
        }
    }

    /// Sets a link.
    pub(crate) fn set(&mut self, position: usize, link: u32)
        requires { position < length self.old }
        ensures { self.new ≡ slice_set self.old position link }
    {
        if self.get(position) == link {
            return;
        }
        touch(&mut self.items, self.in_row, self.count, position);
        self.items[position] = link;
    }
}
