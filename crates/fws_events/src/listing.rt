//! Listed connections, in chunks: where an entry is taken out, those of one chunk move.

ghost use Rattle.std.specs.Prelude.{◌≡◌, ◌<◌, ◌+◌, true, false, [], ◌∷◌, ◌++◌, length, get_or, take, nat_lt, IfOk, OnOk, OnErr};
ghost use Rattle.std.specs.List.{remove};
ghost use Rattle.fws_events.specs.Listing.{AreClassesOf, AreApart, joined};
ghost use Rattle.fws_net.specs.declared.connection.Tuple.{Tuple};
ghost use Rattle.fws_net.specs.Connections.{tuple_of, matches, class_of};
ghost use Rattle.fws_trace.specs.Classes.{class_in, settled};

use crate::chunks::{Chunk, packet_with, stay_apart};
use fws_net::{Conn, Kind, Packet, Tuple};
use fws_num::Memory;
use fws_trace::{Classes, classes_are_found_in_order};
use std::alloc::Global;
use std::marker::Model;

/// Connections in their order. Contracts see the list. Beside its chunks stand the classes that all of them give, by
/// which a packet's is looked up, and whether it is known that what an entry matches, no later one does: then no
/// other chunk is asked where one is taken out.
#[derive(Drop)]
pub struct Listed {
    chunks: Vec<Chunk>,
    count: usize,
    classes: Classes,
    apart: bool,
}

impl Model for Listed {
    ghost use Rattle.std.specs.Prelude.{◌≡◌, true, List, length};
    ghost use Rattle.fws_events.specs.Listing.{AreClassesOf, AreApart, joined};
    ghost use Rattle.fws_net.specs.declared.connection.Conn.{Conn};

    ghost Value = { List Conn };

    ghost view = { λ l. joined l.chunks.items };

    ghost invariant = { λ l. (l.count ≡ length (joined l.chunks.items)) × AreClassesOf l.classes (joined l.chunks.items) × (l.apart ≡ true → AreApart (joined l.chunks.items)) };
}

/// The class of a packet against connections in chunks.
fn class_among(chunks: &[Chunk], p: &Packet) -> Kind
    ensures { result ≡ class_of (joined chunks.now) (tuple_of p.now) }
{
    classes_are_found_in_order();
    for chunk in chunks {
        match chunk.class(p) {
            Kind::New => {}
            Kind::Est(ends) => return Kind::Est(ends),
        }
    }
    Kind::New
}

/// The class of packets that match the tuple, which is new where that is known.
fn left_class(chunks: &[Chunk], is_new: bool, tuple: &Tuple) -> Kind
    ensures { (is_new ≡ true → class_of (joined chunks.now) tuple.now ≡ Kind.New) → result ≡ class_of (joined chunks.now) tuple.now }
{
    if is_new {
        Kind::New
    } else {
        class_among(chunks, &packet_with(tuple))
    }
}

/// Gives packets that match the tuple the class that the chunks have for them, if they have ends now.
fn settle(chunks: &[Chunk], classes: &mut Classes, is_new: bool, tuple: &Tuple)
    ensures { (is_new ≡ true → class_of (joined chunks.now) tuple.now ≡ Kind.New)
        → (t : Tuple) → class_in classes.new t ≡ settled (matches tuple.now t) (class_of (joined chunks.now) tuple.now) (class_in classes.old t) }
{
    classes.settle(tuple, &left_class(chunks, is_new, tuple));
}

/// In which chunk an entry stands, and which of that chunk's it is.
fn place_of(chunks: &[Chunk], k: usize) -> (usize, usize)
    requires { k < length (joined chunks.now) }
    ensures chunk { result.0 < length chunks.now }
    ensures entry { result.1 < length (get_or chunks.now result.0 []) }
    ensures place { k ≡ length (joined (take result.0 chunks.now)) + result.1 }
{
    let mut at = 0;
    let mut left = k;
    while chunks[at].len() <= left {
        left -= chunks[at].len();
        at += 1;
    }
    (at, left)
}

/// Leaves out a chunk that has no entries.
fn leave_out_empty(chunks: &mut Vec<Chunk>, at: usize)
    requires { at < length chunks.old.items }
    ensures { joined chunks.new.items ≡ joined chunks.old.items }
{
    if chunks[at].len() == 0 {
        chunks.remove(at);
    }
}

/// Takes an entry out of its chunk.
fn take_from(chunks: &mut Vec<Chunk>, k: usize) -> Conn
    requires { k < length (joined chunks.old.items) }
    ensures taken { joined chunks.new.items ≡ remove (joined chunks.old.items) k }
    ensures given { result ≡ get_or (joined chunks.old.items) k result }
{
    let (at, entry) = place_of(chunks.as_slice(), k);
    let conn = chunks[at].take(entry);
    leave_out_empty(chunks, at);
    conn
}

/// Takes out an entry, and asks the chunks for what else has its tuples, unless entries are known to be apart.
fn take_entry(chunks: &mut Vec<Chunk>, classes: &mut Classes, apart: bool, k: usize)
    requires { k < length (joined chunks.old.items) }
    ensures taken { joined chunks.new.items ≡ remove (joined chunks.old.items) k }
    ensures known { AreClassesOf classes.old (joined chunks.old.items) → (apart ≡ true → AreApart (joined chunks.old.items)) → AreClassesOf classes.new (joined chunks.new.items) }
    ensures apart { AreApart (joined chunks.old.items) → AreApart (joined chunks.new.items) }
{
    classes_are_found_in_order();
    let conn = take_from(chunks, k);
    settle(chunks.as_slice(), classes, apart, &conn.orig);
    settle(chunks.as_slice(), classes, apart, &conn.reply);
}

/// Whether the last chunk takes one more connection.
fn last_has_room(chunks: &[Chunk]) -> bool
    ensures { result ≡ true → 0 < length chunks.now }
{
    match chunks.last() {
        Some(chunk) => chunk.has_room(),
        None => false,
    }
}

/// Sees to it that the last chunk takes one more connection.
fn make_room(chunks: &mut Vec<Chunk>) -> Result<(), Memory>
    ensures there { OnOk result (0 < length chunks.new.items) }
    ensures kept { joined chunks.new.items ≡ joined chunks.old.items }
{
    if !last_has_room(chunks.as_slice()) {
        chunks.push(Chunk::none(*chunks.allocator()))?;
    }
    Ok(())
}

/// Puts a connection into the last chunk, behind the others.
fn put_last(chunks: &mut Vec<Chunk>, conn: Conn) -> Result<(), Memory>
    ensures appended { OnOk result (joined chunks.new.items ≡ joined chunks.old.items ++ conn ∷ []) }
    ensures kept { OnErr result (joined chunks.new.items ≡ joined chunks.old.items) }
{
    make_room(chunks)?;
    let last = chunks.len() - 1;
    chunks[last].append(conn)
}

/// Puts a connection behind the others, of which there are so many.
fn put_entry(
    chunks: &mut Vec<Chunk>,
    count: usize,
    classes: &mut Classes,
    conn: Conn,
) -> Result<(), Memory>
    requires { count ≡ length (joined chunks.old.items) }
    ensures appended { OnOk result (joined chunks.new.items ≡ joined chunks.old.items ++ conn ∷ []) }
    ensures kept { OnErr result (joined chunks.new.items ≡ joined chunks.old.items) }
    ensures known { AreClassesOf classes.old (joined chunks.old.items) → AreClassesOf classes.new (joined chunks.new.items) }
{
    classes_are_found_in_order();
    put_last(chunks, conn)?;
    match classes.add(&conn) {
        Ok(()) => Ok(()),
        Err(e) => {
            take_from(chunks, count);
            Err(e)
        }
    }
}

/// How many there are with one more. Fails if memory or numbers run out.
fn one_more(count: usize) -> Result<usize, Memory>
    ensures { IfOk result (λ next. next ≡ count + 1) }
{
    count.checked_add(1).ok_or(Memory)
}

impl Listed {
    /// No connections. It takes no memory.
    pub fn none(alloc: Global) -> Listed
        ensures { result ≡ [] }
    {
        Listed {
            chunks: Vec::new(alloc),
            count: 0,
            classes: Classes::none(alloc),
            apart: true,
        }
    }

    /// The connections, chunk by chunk.
    pub fn chunks(&self) -> &[Chunk]
        ensures { joined result.now ≡ self.now }
    {
        self.chunks.as_slice()
    }

    /// How many connections there are.
    pub fn len(&self) -> usize
        ensures { result ≡ length self.now }
    {
        self.count
    }

    /// The class of a packet against the connections.
    pub fn class(&self, p: &Packet) -> Kind
        ensures { result ≡ class_of self.now (tuple_of p.now) }
    {
        self.classes.class(p)
    }

    /// Puts a connection behind the others. Fails if memory runs out, and then they are as before.
    pub fn append(&mut self, conn: Conn) -> Result<(), Memory>
        ensures appended { OnOk result (self.new ≡ self.old ++ conn ∷ []) }
        ensures kept { OnErr result (self.new ≡ self.old) }
    {
        classes_are_found_in_order();
        let count = one_more(self.count)?;
        let apart = stay_apart(&self.classes, self.apart, &conn);
        put_entry(&mut self.chunks, self.count, &mut self.classes, conn)?;
        self.count = count;
        self.apart = apart;
        Ok(())
    }

    /// Takes out the entry with this number, counted from 0, and tells whether there was one. It takes no memory.
    pub fn take_out(&mut self, entry: u32) -> bool
        ensures listed { result ≡ nat_lt entry (length self.old) }
        ensures taken { self.new ≡ remove self.old entry }
    {
        let k = entry as usize;
        if k < self.count {
            take_entry(&mut self.chunks, &mut self.classes, self.apart, k);
            self.count -= 1;
            true
        } else {
            false
        }
    }
}
