// Ballots, and the lines of a profile.
ghost use Rattle.std.specs.Prelude.{◌≡◌, ◌≤◌, ◌<◌, ◌↔◌, [], All, length, slice_index, IfOk, IsOk, IsTrue};
ghost use Rattle.vir_profile.specs.Members.{long_of};

use crate::few::{ALTERNATIVES_IN_PLACE, Few};
use crate::narrow::{NARROW, Narrow};
use std::alloc::{AllocError, Global};
use std::marker::Model;
use std::mem::size_of;

/// Where the alternatives of a longer order stand.
#[derive(Debug, Drop)]
enum Long {
    Narrow(Narrow),
    Wide(Vec<u16>),
}

/// Where the alternatives of a ballot stand.
#[derive(Debug, Drop)]
enum Members {
    Few(Few),
    Long(Box<Long>),
}

/// The order of a ballot: alternatives, the most preferred first. Any list of numbers can be one;
/// `Profile::add` judges it. Up to `ALTERNATIVES_IN_PLACE` of them stand in the ballot itself where
/// each is below 256.
#[derive(Debug, Drop)]
pub struct Ballot {
    members: Members,
}

impl Model for Ballot {
    ghost use Rattle.std.specs.Prelude.{List, ℕ};
    ghost use Rattle.vir_profile.specs.Members.{alternatives_of};

    ghost Value = { List ℕ };

    ghost view = { λ b. alternatives_of b.members };
}

/// Room in which the alternatives of a ballot are spread out.
pub type Room = [u16; NARROW];

// These bytes as numbers of 16 bits.
fn spread<'a>(bytes: &[u8], room: &'a mut Room) -> &'a [u16]
    requires { length bytes.now ≤ NARROW }
    ensures { result.now ≡ bytes.now }
{
    for i in 0..bytes.len() {
        room[i] = u16::from(bytes[i]);
    }
    &room[..bytes.len()]
}

// A ballot whose order is kept apart from it.
fn apart(alloc: Global, long: Long) -> Result<Ballot, AllocError>
    ensures { IfOk result (λ ballot. ballot ≡ long_of long) }
{
    let long = Box::new(alloc, long)?;
    Ok(Ballot {
        members: Members::Long(long),
    })
}

impl Ballot {
    /// The ballot of these few alternatives. It takes no memory.
    pub fn of_few(few: Few) -> Ballot
        ensures { result ≡ few }
    {
        Ballot {
            members: Members::Few(few),
        }
    }

    /// The ballot of these bytes.
    pub fn of_bytes(alloc: Global, places: Vec<u8>) -> Result<Ballot, AllocError>
        requires { length places.items ≤ NARROW }
        ensures { IfOk result (λ ballot. ballot ≡ places.items) }
    {
        apart(alloc, Long::Narrow(Narrow::of(places)))
    }

    /// The ballot of this order.
    pub fn of(alloc: Global, order: Vec<u16>) -> Result<Ballot, AllocError>
        ensures { IfOk result (λ ballot. ballot ≡ order.items) }
    {
        if let Some(few) = Few::of(order.as_slice()) {
            return Ok(Ballot::of_few(few));
        }
        match Narrow::from_slice(alloc, order.as_slice())? {
            Some(narrow) => apart(alloc, Long::Narrow(narrow)),
            None => apart(alloc, Long::Wide(order)),
        }
    }

    /// The ballot of this order. It takes no memory where the order stands in the ballot itself.
    pub fn from_slice(alloc: Global, order: &[u16]) -> Result<Ballot, AllocError>
        ensures order { IfOk result (λ ballot. ballot ≡ order.now) }
        ensures in_place { (length order.now ≤ ALTERNATIVES_IN_PLACE) × All (λ x. x < 256) order.now → IsOk result }
    {
        if let Some(few) = Few::of(order) {
            return Ok(Ballot::of_few(few));
        }
        match Narrow::from_slice(alloc, order)? {
            Some(narrow) => apart(alloc, Long::Narrow(narrow)),
            None => apart(alloc, Long::Wide(Vec::from_slice(alloc, order)?)),
        }
    }

    /// The alternatives, the most preferred first; in the room, unless they stand so in the ballot.
    pub fn alternatives<'a>(&'a self, room: &'a mut Room) -> &'a [u16]
        ensures { result.now ≡ self.now }
    {
        match &self.members {
            Members::Few(few) => spread(few.as_slice(), room),
            Members::Long(long) => match &**long {
                Long::Narrow(narrow) => spread(narrow.as_slice(), room),
                Long::Wide(order) => order.as_slice(),
            },
        }
    }

    /// How many alternatives it lists.
    pub fn len(&self) -> usize
        ensures { result ≡ length self.now }
    {
        match &self.members {
            Members::Few(few) => few.len(),
            Members::Long(long) => match &**long {
                Long::Narrow(narrow) => narrow.as_slice().len(),
                Long::Wide(order) => order.len(),
            },
        }
    }

    /// Whether it lists none.
    pub fn is_empty(&self) -> bool
        ensures { IsTrue result ↔ (self.now ≡ []) }
    {
        self.len() == 0
    }

    /// The alternative at a place, the most preferred one at 0.
    pub fn at(&self, i: usize) -> u16
        requires { i < length self.now }
        ensures { result ≡ slice_index self.now i }
    {
        match &self.members {
            Members::Few(few) => u16::from(few.as_slice()[i]),
            Members::Long(long) => match &**long {
                Long::Narrow(narrow) => u16::from(narrow.as_slice()[i]),
                Long::Wide(order) => order[i],
            },
        }
    }
}

/// A line of a profile: how many voters cast this ballot. A weight of 0 is allowed.
#[derive(Debug, Drop)]
pub struct Entry {
    pub weight: u64,
    pub order: Ballot,
}

// A profile of a million short lines takes no more memory than this for each of them.
const _: () = prove!(size_of::<Entry>() <= 24);
