//! What the keepers of all nodes share.

ghost use Rattle.std.specs.Prelude.{◌≡◌, IfOk, OnErr};
ghost use Rattle.std.specs.Arc.{arc_value};
ghost use Rattle.rh_net.specs.Calls.{IsUnused};
ghost use Rattle.rh_keepers.specs.Faults.{CookiesFail, NetFails, WasAnswered, WasTold};

use rh_io::NoMemory;
use rh_net::{Clock, CookieFailed, Cookies, Net, NetFailed};
use rh_rts::Cookie;
use std::alloc::Global;
use std::sync::{Arc, Mutex, Wait};
use std::thread;

/// The net's books, the clock and the cookies. No call of them waits: keepers wait for legs by a
/// way of their own, which stands under no lock.
#[derive(Drop)]
pub struct Books<N: Net + Drop, C: Clock + Drop, K: Cookies + Drop> {
    pub net: N,
    pub clock: C,
    pub cookies: K,
}

/// The books, under a lock.
#[derive(Drop)]
pub struct Desk<N: Net + Drop, C: Clock + Drop, K: Cookies + Drop> {
    books: Arc<Mutex<Books<N, C, K>>, Global>,
}

impl<N: Net + Drop, C: Clock + Drop, K: Cookies + Drop> Desk<N, C, K> {
    /// A desk with these books. Fails where there is no memory.
    pub fn new(alloc: Global, books: Books<N, C, K>) -> Result<Desk<N, C, K>, NoMemory> {
        Ok(Desk {
            books: Arc::new(alloc, Mutex::new(books))?,
        })
    }

    /// The same desk, for another keeper. Fails where there is no memory.
    pub fn share(&self) -> Result<Desk<N, C, K>, NoMemory> {
        Ok(Desk {
            books: Arc::try_clone(&self.books)?,
        })
    }

    /// The moment, in milliseconds.
    pub(crate) fn now<R: Wait>(&self, rt: &R) -> u64
        ensures { WasTold C.moment result }
    {
        self.books.lock(rt).clock.now()
    }

    /// The next cookie.
    pub(crate) fn cookie<R: Wait>(&self, rt: &R) -> Result<Cookie, CookieFailed>
        ensures answered { IfOk result (λ cookie. WasAnswered K.answered cookie.0) }
        ensures failed { OnErr result (CookiesFail K.faults) }
    {
        let bytes = self.books.lock(rt).cookies.next()?;
        Ok(Cookie(bytes))
    }

    /// Books what came by a way, and gives its leg.
    pub(crate) fn leg<R: Wait>(&self, rt: &R, came: N::Came) -> Result<(N::In, N::Out), NetFailed>
        ensures new { IfOk result
            (IsUnused N.In.taken N.In.faults N.In.ends N.Out.written N.Out.faults) }
        ensures failed { OnErr result (NetFails N.counts) }
    {
        self.books.lock(rt).net.gives(came)
    }

    /// The books, once no other keeper has them.
    pub fn close<R: Wait>(self, rt: &R) -> Books<N, C, K> {
        let Desk { books } = self;
        alone(rt, books).into_inner()
    }
}

/// The value, once nobody else has it.
pub fn alone<T, R: Wait>(rt: &R, shared: Arc<T, Global>) -> T
    ensures { result ≡ arc_value shared }
{
    let mut shared = shared;
    for _ in rt.forever() {
        match Arc::try_unwrap(shared) {
            Ok(value) => return value,
            Err(still) => shared = still,
        }
        thread::yield_now();
    }
    unreachable!()
}
