//! The clients and the calls, by the tokens of the poll.

use crate::service::{Notice, Service};
use crate::stream::Stream;
use am_serve::{Calls, Clients, Progress, Turn};
use am_tally::{Load, Parting, Partings};
use am_url::WebhookUrl;
use mio::Token;
use std::alloc::{AllocError, Global};
use std::net::{IpAddr, Ipv4Addr, SocketAddr};
use std::time::Instant;
use std::{io, mem};

/// How many connections are open at once, at most.
const MOST_CLIENTS: usize = 1024;

/// How many calls of webhooks are under way at once, at most.
pub const MOST_CALLS: usize = 256;

/// The tokens of calls begin here; those of clients are below.
const CALLS: usize = 1 << 32;

#[derive(Drop)]
pub struct Hall<'s, V: Service> {
    alloc: Global,
    service: &'s mut V,
    clients: Clients<Stream>,
    calls: Calls<Stream, V::Name>,
    /// Whoever can go on at once, each once.
    unfinished: Vec<Token>,
    /// The clients that wait for room until the next sweep.
    crowded: Vec<Token>,
    answered: u64,
    /// Who was let go without the whole reply.
    partings: Partings,
    /// How many connections are to be answered, where that is bounded.
    count: Option<u64>,
    buffer: [u8; 4096],
}

impl<'s, V: Service> Hall<'s, V> {
    pub fn new(
        alloc: Global,
        service: &'s mut V,
        count: Option<u64>,
    ) -> Result<Hall<'s, V>, AllocError> {
        Ok(Hall {
            alloc,
            service,
            clients: Clients::new(alloc, MOST_CLIENTS)?,
            calls: Calls::new(alloc, MOST_CALLS)?,
            unfinished: Vec::new(alloc),
            crowded: Vec::new(alloc),
            answered: 0,
            partings: Partings::new(),
            count,
            buffer: [0; 4096],
        })
    }

    pub fn service(&self) -> &V {
        self.service
    }

    pub fn service_mut(&mut self) -> &mut V {
        self.service
    }

    pub fn calls(&self) -> usize {
        self.calls.len()
    }

    /// What is open and held, and who was let go.
    pub fn load(&self) -> Load {
        Load {
            open: self.clients.len(),
            came: self.clients.opened(),
            calls: self.calls.len(),
            reply_bytes: in_bytes(self.clients.reply_bytes()),
            call_bytes: in_bytes(self.calls.request_bytes()),
            partings: self.partings,
        }
    }

    pub fn is_done(&self) -> bool {
        self.count.is_some_and(|count| self.answered >= count)
    }

    pub fn is_full(&self) -> bool {
        self.clients.is_full()
    }

    /// Whether somebody can go on at once.
    pub fn has_more(&self) -> bool {
        !self.unfinished.is_empty()
    }

    pub fn next_client(&self) -> Token {
        Token(self.clients.next_key())
    }

    pub fn next_call(&self) -> Token {
        token_of_call(self.calls.next_key())
    }

    /// The next notice whose call is to begin. As long as requests that webhooks don't take hold too much, only who has
    /// no call under way begins one: nobody waits for what others don't get rid of.
    pub fn next_notice(&mut self) -> Option<Notice<V::Name>> {
        let free = MOST_CALLS.saturating_sub(self.calls.len());
        let places = if self.calls.is_laden() {
            free.min(1)
        } else {
            free
        };
        self.service.next_notice(places)
    }

    /// Ends the calls that give way where the notices that wait hold too much: each is a try without an answer.
    pub fn relieve(&mut self) -> Result<(), AllocError> {
        for _ in 0..u64::MAX {
            let Some(notice) = self.service.next_given_up() else {
                break;
            };
            self.service.end_call(notice.name, None)?;
        }
        Ok(())
    }

    pub fn set_moment(&mut self, moment: u64) {
        self.service.set_moment(moment);
    }

    pub fn tick(&mut self) -> Result<(), AllocError> {
        self.service.tick()
    }

    pub fn end_call(&mut self, name: V::Name, status: Option<u16>) -> Result<(), AllocError> {
        self.service.end_call(name, status)
    }

    /// Hands the replies that came later than their requests to the clients that wait for them. One whose client is
    /// gone is dropped.
    pub fn hand_out(&mut self, now: Instant) -> Result<(), AllocError> {
        for _ in 0..u64::MAX {
            let Some((connection, reply)) = self.service.next_reply() else {
                break;
            };
            let before = self.clients.len();
            let given = self.clients.give(connection, reply, now);
            self.count_unread(before);
            if let Some(key) = given {
                self.serve(key, now)?;
            }
        }
        Ok(())
    }

    /// Counts those who were let go for what the replies hold, where there were so many clients before.
    fn count_unread(&mut self, before: usize) {
        let unread = before.saturating_sub(self.clients.len());
        self.partings.count(Parting::Unread, unread as u64);
    }

    /// Lets go of a client whose request isn't whole, where another waits for its place.
    pub fn make_place(&mut self, now: Instant) -> bool {
        let is_made = self.clients.make_place(self.service, now);
        if is_made {
            self.count_parting(Parting::Crowded);
        }
        is_made
    }

    fn count_parting(&mut self, parting: Parting) {
        self.partings.count(parting, 1);
    }

    /// Takes a client in, which was registered under the next client's token, and gives it its first turn.
    pub fn admit(&mut self, stream: Stream, now: Instant) -> Result<(), AllocError> {
        if self.clients.is_full() {
            return Ok(());
        }
        match self.clients.add(stream, self.service, now) {
            Some(key) => self.serve(key, now),
            None => {
                self.count_parting(Parting::Refused);
                Ok(())
            }
        }
    }

    /// Gives those a turn that could go on at once.
    pub fn resume(&mut self, now: Instant) -> Result<(), AllocError> {
        for token in mem::replace(&mut self.unfinished, Vec::new(self.alloc)) {
            self.move_on(token, now)?;
        }
        Ok(())
    }

    /// Gives the client or the call of a token its turn.
    pub fn move_on(&mut self, token: Token, now: Instant) -> Result<(), AllocError> {
        match token.0.checked_sub(CALLS) {
            Some(key) => self.go_on(key),
            None => self.serve(token.0, now),
        }
    }

    /// Gives a client its turn, unless as many were answered as were asked for.
    fn serve(&mut self, key: usize, now: Instant) -> Result<(), AllocError> {
        if self.is_done() {
            return Ok(());
        }
        if self.clients.check(key, self.service) {
            self.count_parting(Parting::Reset);
            return Ok(());
        }
        match self.turn(key, now) {
            Some(turn) => self.follow(key, turn),
            None => Ok(()),
        }
    }

    /// A client's turn, of which is counted who was let go for what the replies hold.
    fn turn(&mut self, key: usize, now: Instant) -> Option<Turn> {
        let before = self.clients.len();
        let turn = self.clients.turn(key, self.service, now, &mut self.buffer)?;
        self.count_unread(before.saturating_sub(usize::from(turn.lets_go())));
        Some(turn)
    }

    /// What a client's turn came to.
    fn follow(&mut self, key: usize, turn: Turn) -> Result<(), AllocError> {
        match turn {
            Turn::More => self.keep(Token(key))?,
            Turn::Drains => {
                self.count_answer();
                self.keep(Token(key))?;
            }
            Turn::Answered => self.count_answer(),
            Turn::Crowded => self.crowded.push(Token(key))?,
            Turn::Lost => self.count_parting(Parting::Lost),
            Turn::Gone => self.count_parting(Parting::Dropped),
            Turn::Waits | Turn::Drained => {}
        }
        Ok(())
    }

    fn count_answer(&mut self) {
        self.answered = self.answered.saturating_add(1);
    }

    /// Notes that somebody can go on at once.
    fn keep(&mut self, token: Token) -> Result<(), AllocError> {
        if !self.unfinished.contains(&token) {
            self.unfinished.push(token)?;
        }
        Ok(())
    }

    /// Begins a call, whose socket was registered under the next call's token.
    pub fn call(&mut self, stream: Stream, notice: Notice<V::Name>, now: Instant) {
        if !self.calls.is_full() {
            let Notice { name, request, .. } = notice;
            self.calls.add(stream, request.into_vec(), name, now);
        }
    }

    /// Gives a call its turn, and tells the service what came of it once it ends.
    fn go_on(&mut self, key: usize) -> Result<(), AllocError> {
        match self.calls.turn(key, &mut self.buffer) {
            Some(Progress::More) => self.keep(token_of_call(key)),
            Some(Progress::Ended { name, status }) => self.service.end_call(name, status),
            Some(Progress::Waits) | None => Ok(()),
        }
    }

    /// Lets go of the clients and the calls that are late, and lets those that wait for room go on.
    pub fn sweep(&mut self, now: Instant) -> Result<(), AllocError> {
        for key in 0..self.clients.capacity() {
            if self.clients.judge(key, self.service, now) {
                self.count_parting(Parting::Late);
            }
        }
        self.sweep_calls(now)?;
        for token in mem::replace(&mut self.crowded, Vec::new(self.alloc)) {
            self.keep(token)?;
        }
        Ok(())
    }

    fn sweep_calls(&mut self, now: Instant) -> Result<(), AllocError> {
        for key in 0..self.calls.capacity() {
            if let Some(name) = self.calls.judge(key, now) {
                self.service.end_call(name, None)?;
            }
        }
        Ok(())
    }

    /// Where a notice goes.
    pub fn address_of(&self, notice: &Notice<V::Name>) -> io::Result<SocketAddr> {
        let url = WebhookUrl::read(self.alloc, notice.url.as_str())?;
        match url.as_ref().and_then(address) {
            Some(address) => Ok(address),
            None => Err(io::ErrorKind::InvalidInput.into()),
        }
    }
}

fn in_bytes(sum: u128) -> u64 {
    u64::try_from(sum).unwrap_or(u64::MAX)
}

fn token_of_call(key: usize) -> Token {
    Token(CALLS.saturating_add(key))
}

/// The address that a URL names: `localhost` or four numbers, in which zeros may stand in front, and a port.
fn address(url: &WebhookUrl) -> Option<SocketAddr> {
    let name = match url.host().split_once(':') {
        Some((name, _)) => name,
        None => url.host(),
    };
    let host = if name == "localhost" {
        Ipv4Addr::LOCALHOST
    } else {
        numbers(name)?
    };
    Some(SocketAddr::new(IpAddr::V4(host), url.port()))
}

fn numbers(name: &str) -> Option<Ipv4Addr> {
    let (first, behind) = name.split_once('.')?;
    let (second, after) = behind.split_once('.')?;
    let (third, fourth) = after.split_once('.')?;
    let number = |digits: &str| digits.parse::<u8>().ok();
    Some(Ipv4Addr::new(
        number(first)?,
        number(second)?,
        number(third)?,
        number(fourth)?,
    ))
}
