//! Chunks of listed connections, among which the class of a packet is looked up.

ghost use Rattle.std.specs.Prelude.{◌≡◌, ◌<◌, true, false, [], ◌∷◌, ◌++◌, length, get_or, nat_lt, OnOk, OnErr};
ghost use Rattle.std.specs.List.{remove};
ghost use Rattle.fws_events.specs.Listing.{AreClassesOf, AreApart};
ghost use Rattle.fws_net.specs.declared.connection.Tuple.{Tuple};
ghost use Rattle.fws_net.specs.Connections.{tuple_of, matches, class_of, is_est};
ghost use Rattle.fws_trace.specs.Classes.{class_in, settled};

use fws_net::{Conn, Kind, Packet, Tuple, class};
use fws_num::Memory;
use fws_trace::{Classes, classes_are_found_in_order};
use std::alloc::Global;
use std::marker::Model;

/// How many connections a chunk takes.
const MOST: usize = 1024;

/// Some connections in their order. Contracts see the list; beside it stand the classes that it gives, by which a
/// packet's is looked up, and whether it is known that what an entry matches, no later one does: then nothing is
/// searched for where one is taken out.
#[derive(Drop)]
pub struct Chunk {
    list: Vec<Conn>,
    classes: Classes,
    apart: bool,
}

impl Model for Chunk {
    ghost use Rattle.std.specs.Prelude.{◌≡◌, true, List};
    ghost use Rattle.fws_events.specs.Listing.{AreClassesOf, AreApart};
    ghost use Rattle.fws_net.specs.declared.connection.Conn.{Conn};

    ghost Value = { List Conn };

    ghost view = { λ l. l.list.items };

    ghost invariant = { λ l. AreClassesOf l.classes l.list.items × (l.apart ≡ true → AreApart l.list.items) };
}

/// A packet with this tuple.
pub(crate) fn packet_with(tuple: &Tuple) -> Packet
    ensures { tuple_of result ≡ tuple.now }
{
    Packet {
        entry: 0,
        proto: tuple.proto,
        dst: tuple.dst,
        dport: tuple.dport,
        src: tuple.src,
        sport: tuple.sport,
        flags: 0,
        icmp: 0,
    }
}

/// The class of packets that match the tuple, by a search of the list.
fn searched(list: &[Conn], tuple: &Tuple) -> Kind
    ensures { result ≡ class_of list.now tuple.now }
{
    class(list, &packet_with(tuple))
}

/// The class of packets that match the tuple, which is new where that is known.
fn left_class(list: &[Conn], is_new: bool, tuple: &Tuple) -> Kind
    ensures { (is_new ≡ true → class_of list.now tuple.now ≡ Kind.New) → result ≡ class_of list.now tuple.now }
{
    if is_new {
        Kind::New
    } else {
        searched(list, tuple)
    }
}

/// Gives packets that match the tuple the class that the list has for them, if they have ends now.
fn settle(list: &[Conn], classes: &mut Classes, is_new: bool, tuple: &Tuple)
    ensures { (is_new ≡ true → class_of list.now tuple.now ≡ Kind.New)
        → (t : Tuple) → class_in classes.new t ≡ settled (matches tuple.now t) (class_of list.now tuple.now) (class_in classes.old t) }
{
    classes.settle(tuple, &left_class(list, is_new, tuple));
}

/// Takes out an entry of the list, and looks through the others for what else has its tuples, unless they are
/// known to be apart.
fn take_entry(list: &mut Vec<Conn>, classes: &mut Classes, apart: bool, k: usize) -> Conn
    requires { k < length list.old.items }
    ensures taken { list.new.items ≡ remove list.old.items k }
    ensures given { result ≡ get_or list.old.items k result }
    ensures known { AreClassesOf classes.old list.old.items → (apart ≡ true → AreApart list.old.items) → AreClassesOf classes.new list.new.items }
    ensures apart { AreApart list.old.items → AreApart list.new.items }
{
    classes_are_found_in_order();
    let conn = list.remove(k);
    settle(list.as_slice(), classes, apart, &conn.orig);
    settle(list.as_slice(), classes, apart, &conn.reply);
    conn
}

/// Whether it is known that entries stay apart with a further connection.
pub(crate) fn stay_apart(classes: &Classes, apart: bool, conn: &Conn) -> bool
    ensures { result ≡ true → (apart ≡ true) × (is_est (class_in classes.now conn.now.orig) ≡ false) × (is_est (class_in classes.now conn.now.reply) ≡ false) }
{
    if !apart {
        return false;
    }
    let orig = classes.class(&packet_with(&conn.orig)).is_est();
    let reply = classes.class(&packet_with(&conn.reply)).is_est();
    !orig && !reply
}

/// Puts a connection behind the others.
fn put_entry(list: &mut Vec<Conn>, classes: &mut Classes, conn: Conn) -> Result<(), Memory>
    ensures appended { OnOk result (list.new.items ≡ list.old.items ++ conn ∷ []) }
    ensures kept { OnErr result (list.new.items ≡ list.old.items) }
    ensures known { AreClassesOf classes.old list.old.items → AreClassesOf classes.new list.new.items }
{
    classes_are_found_in_order();
    list.push(conn)?;
    match classes.add(&conn) {
        Ok(()) => Ok(()),
        Err(e) => {
            list.pop();
            Err(e)
        }
    }
}

impl Chunk {
    /// No connections. It takes no memory.
    pub(crate) fn none(alloc: Global) -> Chunk
        ensures { result ≡ [] }
    {
        Chunk {
            list: Vec::new(alloc),
            classes: Classes::none(alloc),
            apart: true,
        }
    }

    /// The connections.
    pub fn as_slice(&self) -> &[Conn]
        ensures { result.now ≡ self.now }
    {
        self.list.as_slice()
    }

    /// How many there are.
    pub(crate) fn len(&self) -> usize
        ensures { result ≡ length self.now }
    {
        self.list.len()
    }

    /// Whether it takes one more.
    pub(crate) fn has_room(&self) -> bool
        ensures { result ≡ nat_lt (length self.now) 1024 }
    {
        self.list.len() < MOST
    }

    /// The class of a packet against the connections.
    pub(crate) fn class(&self, p: &Packet) -> Kind
        ensures { result ≡ class_of self.now (tuple_of p.now) }
    {
        self.classes.class(p)
    }

    /// Puts a connection behind the others. Fails if memory runs out, and then they are as before.
    pub(crate) fn append(&mut self, conn: Conn) -> Result<(), Memory>
        ensures appended { OnOk result (self.new ≡ self.old ++ conn ∷ []) }
        ensures kept { OnErr result (self.new ≡ self.old) }
    {
        classes_are_found_in_order();
        let apart = stay_apart(&self.classes, self.apart, &conn);
        put_entry(&mut self.list, &mut self.classes, conn)?;
        self.apart = apart;
        Ok(())
    }

    /// Takes out the entry with this number, counted from 0. It takes no memory.
    pub(crate) fn take(&mut self, k: usize) -> Conn
        requires { k < length self.old }
        ensures taken { self.new ≡ remove self.old k }
        ensures given { result ≡ get_or self.old k result }
    {
        take_entry(&mut self.list, &mut self.classes, self.apart, k)
    }
}
