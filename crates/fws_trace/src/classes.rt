//! The classes of packets against a list of connections, looked up in place of searched.

ghost use Rattle.std.specs.Prelude.{◌≡◌, true, List, [], ◌∷◌, ◌++◌, IfOk, OnOk, OnErr};
ghost use Rattle.std.specs.HashMap.{get};
ghost use Rattle.fws_net.specs.declared.connection.Conn.{Conn};
ghost use Rattle.fws_net.specs.declared.connection.Tuple.{Tuple};
ghost use Rattle.fws_net.specs.Connections.{tuple_of, matches, inverse, class_of};
ghost use Rattle.fws_net.specs.Fates.{has_ports};
ghost use Rattle.fws_trace.specs.Classes.{key_of, key_eq, counted_port, class_in, first_class, class_by, settled};

use fws_net::{Conn, Kind, Packet, Rec, Tuple};
use fws_num::Memory;
use std::alloc::Global;
use std::collections::HashMap;

const TCP: u8 = 6;

const UDP: u8 = 17;

/// Whether packets of the protocol have ports.
pub(crate) fn has_ports(proto: u8) -> bool
    ensures { result ≡ has_ports proto }
{
    proto == TCP || proto == UDP
}

/// What a tuple shares with those that match it, and with no other: ports that don't count are 0.
#[derive(Clone, Copy, PartialEq, Eq, Hash)]
pub struct Key {
    proto: u8,
    dst: u32,
    dport: u16,
    src: u32,
    sport: u16,
}

/// A port where ports count, else 0.
fn counted_port(proto: u8, port: u16) -> u16
    ensures { result ≡ counted_port proto port }
{
    if has_ports(proto) { port } else { 0 }
}

impl Key {
    fn of(tuple: &Tuple) -> Key
        ensures { result ≡ key_of tuple.now }
    {
        Key {
            proto: tuple.proto,
            dst: tuple.dst,
            dport: counted_port(tuple.proto, tuple.dport),
            src: tuple.src,
            sport: counted_port(tuple.proto, tuple.sport),
        }
    }
}

/// The ends with which packets leave that match the other tuple of the connection.
fn inverse(tuple: &Tuple) -> Rec
    ensures { result ≡ inverse tuple.now }
{
    Rec {
        rdst: tuple.src,
        rdport: tuple.sport,
        rsrc: tuple.dst,
        rsport: tuple.dport,
    }
}

/// The classes of packets: for each tuple of a connection, the ends with which matching packets leave.
#[derive(Drop)]
pub struct Classes {
    /// The ends, by what the tuple shares with those that match it.
    pub ends: HashMap<Key, Rec>,
}

impl Classes {
    /// The classes against no connections.
    pub fn none(alloc: Global) -> Classes
        ensures { (t : Tuple) → class_in result t ≡ Kind.New }
    {
        Classes {
            ends: HashMap::new(alloc),
        }
    }

    /// The ends of packets whose tuples have the key.
    fn find(&self, key: &Key) -> Option<Rec>
        ensures { result ≡ get key_eq self.now.ends key.now }
    {
        self.ends.get(key).copied()
    }

    /// Notes the ends of packets that match the tuple, unless these have some already.
    fn note(&mut self, tuple: &Tuple, ends: Rec) -> Result<(), Memory>
        ensures noted { OnOk result ((t : Tuple) → class_in self.new t ≡ first_class (class_in self.old t) (class_by tuple.now ends t)) }
        ensures kept { OnErr result ((t : Tuple) → class_in self.new t ≡ class_in self.old t) }
    {
        let key = Key::of(tuple);
        match self.find(&key) {
            Some(_) => Ok(()),
            None => {
                self.ends.insert(key, ends)?;
                Ok(())
            }
        }
    }

    /// Gives packets whose tuples have the key other ends, if they have some now.
    fn replace(&mut self, key: Key, ends: Rec)
        ensures { (t : Tuple) → (k : Tuple) → key ≡ key_of k → class_in self.new t ≡ settled (matches k t) (Kind.Est ends) (class_in self.old t) }
    {
        match self.find(&key) {
            Some(_) => match self.ends.insert(key, ends) {
                Ok(_) => {}
                Err(_) => {}
            },
            None => {}
        }
    }

    /// Gives packets that match the tuple another class, if they have ends now. It takes no memory.
    pub fn settle(&mut self, tuple: &Tuple, kind: &Kind)
        ensures { (t : Tuple) → class_in self.new t ≡ settled (matches tuple.now t) kind.now (class_in self.old t) }
    {
        let key = Key::of(tuple);
        match kind {
            Kind::New => {
                self.ends.remove(&key);
            }
            Kind::Est(ends) => self.replace(key, *ends),
        }
    }

    /// Notes a connection behind those that are known: its original tuple, and then its reply tuple. If memory runs out the classes
    /// are as before.
    pub fn add(&mut self, conn: &Conn) -> Result<(), Memory>
        ensures noted { OnOk result ((t : Tuple) → class_in self.new t ≡ first_class (class_in self.old t) (class_of (conn.now ∷ []) t)) }
        ensures kept { OnErr result ((t : Tuple) → class_in self.new t ≡ class_in self.old t) }
    {
        let before = self.known(&conn.orig);
        self.note(&conn.orig, inverse(&conn.reply))?;
        match self.note(&conn.reply, inverse(&conn.orig)) {
            Ok(()) => Ok(()),
            Err(e) => {
                self.settle(&conn.orig, &before);
                Err(e)
            }
        }
    }

    /// The classes against the connections.
    pub(crate) fn of(alloc: Global, conns: &[Conn]) -> Result<Classes, Memory>
        ensures { IfOk result (λ classes. (t : Tuple) → class_in classes t ≡ class_of conns.now t) }
    {
        let mut classes = Classes::none(alloc);
        for conn in conns {
            classes.add(conn)?;
        }
        Ok(classes)
    }

    /// The class of packets that match the tuple.
    fn known(&self, tuple: &Tuple) -> Kind
        ensures { result ≡ class_in self.now tuple.now }
    {
        match self.find(&Key::of(tuple)) {
            Some(ends) => Kind::Est(ends),
            None => Kind::New,
        }
    }

    /// The class of a packet as it enters.
    pub fn class(&self, p: &Packet) -> Kind
        ensures { result ≡ class_in self.now (tuple_of p.now) }
    {
        self.known(&p.tuple())
    }
}

/// Does nothing: the clauses are laws of classes. Tuples that match are matched by the same tuples; and what
/// a list gives with more connections behind it is the class by the list, or else by those behind it.
pub fn classes_are_found_in_order()
    ensures alike { (a b c : Tuple) → matches a b ≡ true → matches c a ≡ matches c b }
    ensures behind { (xs ys : List Conn) (t : Tuple) → class_of (xs ++ ys) t ≡ first_class (class_of xs t) (class_of ys t) }
{}
