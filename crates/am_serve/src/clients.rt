//! The table of clients.
ghost use Rattle.std.specs.Prelude.{◌≡◌, ◌≢◌, ◌↔◌, ◌+◌, ◌-◌, ◌*◌, ◌<◌, ◌≤◌, ◌^◌, ℕ, []};
ghost use Rattle.std.specs.Prelude.{Some, None, IfNone, IfOk, IfSome, IsSomeAnd, IsTrue, MatchOption, OnSome};
ghost use Rattle.std.specs.Prelude.{false, true};
ghost use Rattle.slab.specs.Slab.{Updates, get, slab_len};
ghost use Rattle.am_serve.specs.Clients.{IsAwaiting, IsStale};
ghost use Rattle.am_serve.specs.Giving.{IsWithin, NoneAwaits, NoneGives, Relieves, RelievesAll};
ghost use Rattle.am_serve.specs.Giving.{reply_bytes_at, reply_bytes_in};
ghost use Rattle.am_serve.specs.Pools.{excess_in, held_in};
ghost use Rattle.am_serve.specs.declared.giving.Wanted.TheVariants as Wanted;
ghost use Rattle.am_serve.specs.Tables.{Adds, ChecksAt, GivesPlace, GivesReply, GivesReplyAt, LetsGo, Others};
ghost use Rattle.am_serve.specs.Tables.{Refuses, TakesTurnAt, TakesTurnWithin};

use crate::client::{Client, OWN_BYTES, Turn};
use crate::giving::{Wanted, awaiting, gives_way};
use crate::host::Host;
use crate::socket::Socket;
use slab::Slab;
use std::alloc::{AllocError, Global};
use std::time::Instant;

/// How many bytes the replies that are under way may hold together, unless one holds them all.
pub const REPLY_BYTES: usize = 268_435_456;

/// How many bytes all clients may hold undecided past their own shares.
pub const POOL_BYTES: usize = 33_554_432;

/// The clients of a server, at most as many as its limit. Each is known by its key, and to the host by its number.
///
/// A host holds the bytes of a request undecided until the request is whole. Each client may have 32 KiB of them of its
/// own; what it has past that comes out of a pool of 32 MiB. While the pool has no room, a client that would need it
/// isn't read.
///
/// A reply is held whole until its last byte was taken. All of them hold at most 256 MiB; where they would hold more,
/// clients are let go, first the one that is longest without a byte of its reply taken.
#[derive(Drop)]
pub struct Clients<S: Socket> {
    clients: Slab<Client<S>>,
    limit: usize,
    // How many connections were opened in the host: the next one's number.
    opened: u64,
    // How many bytes are taken out of the pool.
    pooled: usize,
    // How many bytes the replies that are under way hold. No number of lengths comes to more.
    replying: u128,
    ghost few: { limit < 2 ^ 64 },
    ghost bounded: { slab_len clients ≤ limit },
    ghost room: { limit ≤ clients.capacity },
    ghost counted: { pooled ≡ excess_in clients.slots },
    ghost replies: { replying ≡ reply_bytes_in clients.slots },
    ghost pool: { pooled ≤ 33554432 },
}

impl<S: Socket> Clients<S> {
    /// No clients, with the memory for as many as the limit: the table takes no more.
    ///
    /// # Errors
    /// Out of memory.
    pub fn new(alloc: Global, limit: usize) -> Result<Clients<S>, AllocError>
        ensures empty { IfOk result (λ table. table.clients.slots ≡ []) }
        ensures limit { IfOk result (λ table. table.limit ≡ limit) }
        ensures opened { IfOk result (λ table. table.opened ≡ 0) }
    {
        Ok(Clients {
            clients: Slab::with_capacity(alloc, limit)?,
            limit,
            opened: 0,
            pooled: 0,
            replying: 0,
        })
    }

    /// How many clients there are.
    pub fn len(&self) -> usize
        ensures count { result ≡ slab_len self.now.clients }
        // What all clients together hold undecided.
        ensures memory { held_in self.now.clients.slots ≤ 32768 * result + 33554432 }
    {
        self.clients.len()
    }

    /// Whether there are none.
    pub fn is_empty(&self) -> bool
        ensures { IsTrue result ↔ (slab_len self.now.clients ≡ 0) }
    {
        self.clients.len() == 0
    }

    /// Whether there are as many as the limit.
    pub fn is_full(&self) -> bool
        ensures { IsTrue result ↔ (self.now.limit ≤ slab_len self.now.clients) }
    {
        self.clients.len() >= self.limit
    }

    /// How many bytes the replies hold that are under way: each the whole, until its last byte was taken.
    pub fn reply_bytes(&self) -> u128
        ensures { result ≡ reply_bytes_in self.now.clients.slots }
    {
        self.replying
    }

    /// How many connections were opened in the host: the next one has this number.
    pub fn opened(&self) -> u64
        ensures { result ≡ self.now.opened }
    {
        self.opened
    }

    /// All keys are below this.
    pub fn capacity(&self) -> usize
        ensures value { result ≡ self.now.clients.capacity }
        ensures keys { (key : ℕ) → result ≤ key → get self.now.clients key ≡ None }
    {
        self.clients.capacity()
    }

    /// The key that the next client gets.
    pub fn next_key(&self) -> usize
        ensures key { result ≡ self.now.clients.vacant_key }
        ensures vacant { get self.now.clients result ≡ None }
    {
        self.clients.vacant_key()
    }

    /// Opens a connection in the host under the next number, and gives the client's key. `None`: the host doesn't take
    /// it, and the socket is dropped. The number is used either way. After 2^64 - 1 numbers none is opened any more.
    pub fn add<H: Host>(&mut self, socket: S, host: &mut H, now: Instant) -> Option<usize>
        requires { slab_len self.old.clients < self.old.limit }
        ensures added { IfSome result (λ key. Adds H.opens self.old.clients self.new.clients key socket self.old.opened self.new.opened now host.old host.new) }
        ensures refused { IfNone result (Refuses H.opens self.old.clients self.new.clients self.old.opened self.new.opened host.old host.new) }
        ensures limit { self.new.limit ≡ self.old.limit }
    {
        if self.opened == u64::MAX {
            return None;
        }
        let connection = self.opened;
        self.opened += 1;
        if !host.open(connection) {
            return None;
        }
        let client = Client::new(socket, connection, now);
        Some(self.clients.insert_reserved(client))
    }

    /// Gives the client of this key its turn: at most 16 reads of 4,096 bytes and writes, until the socket would have
    /// to wait. Each piece that it reads goes to the host under the client's number, until the host gives its reply;
    /// that is written. A reply of success closes the connection at once; after any other what the client still sends
    /// is thrown away until it ends, since the reply may be lost on its way where bytes are left unread. A client
    /// that is lost while the host is undecided is closed in the host. Where the replies hold too much then, clients
    /// are let go, first the one that is longest without a byte of its reply taken. `None`: there is no such client.
    pub fn turn<H: Host>(
        &mut self,
        key: usize,
        host: &mut H,
        now: Instant,
        buffer: &mut [u8; 4096],
    ) -> Option<Turn>
        ensures turned { TakesTurnWithin S.does H.takes H.closes now self.old.clients self.new.clients key
            (get self.old.clients key) host.old host.new result }
        ensures opened { self.new.opened ≡ self.old.opened }
        ensures limit { self.new.limit ≡ self.old.limit }
    {
        let turn = self.take_turn(key, host, now, buffer);
        self.relieve();
        turn
    }

    // A turn, after which the replies may hold too much.
    fn take_turn<H: Host>(
        &mut self,
        key: usize,
        host: &mut H,
        now: Instant,
        buffer: &mut [u8; 4096],
    ) -> Option<Turn>
        ensures turned { TakesTurnAt S.does H.takes H.closes now self.old.clients self.new.clients key
            (get self.old.clients key) host.old host.new result }
        ensures others { Others self.old.clients self.new.clients key }
        ensures opened { self.new.opened ≡ self.old.opened }
        ensures limit { self.new.limit ≡ self.old.limit }
    {
        let pooled = self.pooled;
        let replying = self.replying;
        let client = self.clients.get_mut(key)?;
        let others = pooled - client.excess();
        let other_replies = replying - client.reply_bytes() as u128;
        let turn = client.turn(host, now, buffer, OWN_BYTES + (POOL_BYTES - others));
        self.pooled = others + client.excess();
        self.replying = other_replies + client.reply_bytes() as u128;
        if turn.lets_go() {
            self.let_go(key, host);
        }
        Some(turn)
    }

    /// Gives the client of this connection the reply that it waits for, and says its key: it is to be given a turn.
    /// Its time begins anew. Where the replies hold too much then, clients are let go, as after a turn. `None`: no
    /// client waits for a reply to this connection, and the reply is dropped.
    pub fn give(&mut self, connection: u64, reply: Vec<u8>, now: Instant) -> Option<usize>
        ensures given { IfSome result (GivesReply connection reply.items now self.old.clients self.new.clients) }
        ensures none { IfNone result (NoneAwaits connection self.old.clients × (self.new ≡ self.old)) }
        ensures opened { self.new.opened ≡ self.old.opened }
        ensures limit { self.new.limit ≡ self.old.limit }
    {
        let key = awaiting(&self.clients, connection)?;
        self.give_to(key, reply, now);
        self.relieve();
        Some(key)
    }

    // A reply is given, after which the replies may hold too much.
    fn give_to(&mut self, key: usize, reply: Vec<u8>, now: Instant)
        requires { IsSomeAnd (get self.old.clients key) (λ client. IsAwaiting client.stage) }
        ensures given { GivesReplyAt reply.items now self.old.clients self.new.clients key }
        ensures opened { self.new.opened ≡ self.old.opened }
        ensures limit { self.new.limit ≡ self.old.limit }
    {
        let Some(client) = self.clients.get_mut(key) else {
            unreachable!()
        };
        client.give(reply, now);
        self.replying += client.reply_bytes() as u128;
    }

    /// Lets go of the client of this key where no byte was read or written for 5 seconds, or where it was there for
    /// 40; where it waits for its reply, after 10 seconds of that. Says whether it did. Where the host is undecided, it
    /// is closed there. Time in which the client waited for room doesn't count as silence, as long as it gets its turns
    /// meanwhile.
    pub fn judge<H: Host>(&mut self, key: usize, host: &mut H, now: Instant) -> bool
        ensures stale { MatchOption (get self.old.clients key) (result ≡ false) (λ client. IsTrue result ↔ IsStale client now) }
        ensures goes { result ≡ true → IfSome (get self.old.clients key) (λ client. LetsGo H.closes client (get self.new.clients key) host.old host.new) }
        ensures stays { result ≡ false → (self.new ≡ self.old) × (host.new ≡ host.old) }
        ensures others { Others self.old.clients self.new.clients key }
        ensures opened { self.new.opened ≡ self.old.opened }
        ensures limit { self.new.limit ≡ self.old.limit }
    {
        let Some(client) = self.clients.get(key) else {
            return false;
        };
        if !client.is_stale(now) {
            return false;
        }
        self.let_go(key, host);
        true
    }

    // Lets go of a client, and closes it in the host where that is undecided.
    fn let_go<H: Host>(&mut self, key: usize, host: &mut H)
        ensures goes { IfSome (get self.old.clients key) (λ client. LetsGo H.closes client (get self.new.clients key) host.old host.new) }
        ensures others { Others self.old.clients self.new.clients key }
        ensures opened { self.new.opened ≡ self.old.opened }
        ensures limit { self.new.limit ≡ self.old.limit }
    {
        let Some(client) = self.remove(key) else {
            return;
        };
        if client.is_asking() {
            host.close(client.connection());
        }
    }

    // Takes a client out.
    fn remove(&mut self, key: usize) -> Option<Client<S>>
        ensures value { result ≡ get self.old.clients key }
        ensures updates { Updates self.old.clients self.new.clients key None }
        ensures fewer { OnSome result (slab_len self.new.clients + 1 ≡ slab_len self.old.clients) }
        ensures opened { self.new.opened ≡ self.old.opened }
        ensures limit { self.new.limit ≡ self.old.limit }
    {
        let client = self.clients.try_remove(key)?;
        self.pooled -= client.excess();
        self.replying -= client.reply_bytes() as u128;
        Some(client)
    }

    /// Lets go of the client of this key where its connection failed before the host had its whole request, and says
    /// whether it did. It is to be asked before a turn, so that no request is handed on of a client that is gone.
    pub fn check<H: Host>(&mut self, key: usize, host: &mut H) -> bool
        ensures checked { ChecksAt S.does H.closes self.old.clients self.new.clients key
            (get self.old.clients key) host.old host.new result }
        ensures others { Others self.old.clients self.new.clients key }
        ensures opened { self.new.opened ≡ self.old.opened }
        ensures limit { self.new.limit ≡ self.old.limit }
    {
        let Some(client) = self.clients.get_mut(key) else {
            return false;
        };
        let is_lost = client.is_lost();
        if is_lost {
            self.let_go(key, host);
        }
        is_lost
    }

    /// Lets go of a client to make a place: of those without a whole request that are there for a second the one that
    /// is longest without a byte moved, and closes it in the host. Says whether there was one.
    pub fn make_place<H: Host>(&mut self, host: &mut H, now: Instant) -> bool
        ensures goes { result ≡ true → GivesPlace H.closes self.old.clients self.new.clients now host.old host.new }
        ensures none { result ≡ false → NoneGives (Wanted.Place now) self.old.clients
            × (self.new ≡ self.old) × (host.new ≡ host.old) }
        ensures opened { self.new.opened ≡ self.old.opened }
        ensures limit { self.new.limit ≡ self.old.limit }
    {
        let Some(key) = gives_way(&self.clients, Wanted::Place(now)) else {
            return false;
        };
        self.let_go(key, host);
        true
    }

    // Lets go of clients whose replies are under way until the replies hold at most 256 MiB, or one holds them all:
    // first the one that is longest without a byte of its reply taken. Their requests stand.
    fn relieve(&mut self)
        ensures relieves { RelievesAll self.old.clients self.new.clients }
        ensures opened { self.new.opened ≡ self.old.opened }
        ensures limit { self.new.limit ≡ self.old.limit }
    {
        while self.relieve_one() {}
    }

    // Lets go of one client whose reply is under way, where the replies hold too much.
    fn relieve_one(&mut self) -> bool
        ensures goes { result ≡ true → (key : ℕ) × Relieves self.old.clients key self.new.clients }
        ensures fewer { result ≡ true → slab_len self.new.clients + 1 ≡ slab_len self.old.clients }
        ensures within { result ≡ false → IsWithin self.old.clients.slots × (self.new ≡ self.old) }
        ensures opened { self.new.opened ≡ self.old.opened }
        ensures limit { self.new.limit ≡ self.old.limit }
    {
        if self.replying <= REPLY_BYTES as u128 {
            return false;
        }
        let Some(key) = gives_way(&self.clients, Wanted::Reply) else {
            return false;
        };
        if self.holds_all(key) {
            return false;
        }
        self.remove(key);
        true
    }

    // Whether one client's reply holds all that the replies hold.
    fn holds_all(&self, key: usize) -> bool
        ensures { IsTrue result
            ↔ (reply_bytes_at (get self.now.clients key) ≡ reply_bytes_in self.now.clients.slots) }
    {
        let own = match self.clients.get(key) {
            Some(client) => client.reply_bytes(),
            None => 0,
        };
        own as u128 == self.replying
    }
}
