// The generated profile of `drill`: orders that a seed gives, one after another.
ghost use Rattle.std.specs.Prelude.{◌≡◌, ◌≤◌, None, [], ◌∷◌, ◌++◌, IfOk, OnOk};
ghost use Rattle.vir_profile.specs.Add.{add_fault};
ghost use Rattle.vir_counting.specs.Drill.{next_state, draw_of, drawn_from, drill_votes};

use std::alloc::{AllocError, Global};
use vir_profile::{AddFault, Ballot, Entry, Profile};

// What takes a state to the one after it.
const FACTOR: u64 = 6364136223846793005;

const SUMMAND: u64 = 1442695040888963407;

// Draws of numbers below 2^31, by a state of 64 bits.
#[derive(Drop)]
struct Draws {
    state: u64,
}

impl Draws {
    // The next draw.
    fn draw(&mut self) -> u64
        ensures state { self.new.state ≡ next_state self.old.state }
        ensures drawn { result ≡ draw_of self.new.state }
    {
        self.state = FACTOR.wrapping_mul(self.state).wrapping_add(SUMMAND);
        self.state >> 33
    }
}

// The next order of so many alternatives.
fn drawn_order(alloc: Global, draws: &mut Draws, alternatives: u16) -> Result<Vec<u16>, AllocError>
    requires some { 1 ≤ alternatives }
    requires few { alternatives ≤ 128 }
    ensures order { IfOk result (λ order. order.items ≡ (drawn_from draws.old.state alternatives).order) }
    ensures state { OnOk result (draws.new.state ≡ (drawn_from draws.old.state alternatives).state) }
{
    let mut order = Vec::with_capacity(alloc, usize::from(alternatives))?;
    order.push(1)?;
    for j in 2..=alternatives {
        let place = draws.draw() % u64::from(j);
        order.insert(place as usize, j)?;
    }
    Ok(order)
}

// Adds a line that has no fault. It fails only for want of memory.
fn add_faultless(profile: &mut Profile, line: Entry) -> Result<(), AllocError>
    requires { add_fault profile.old line ≡ None }
    ensures { OnOk result (profile.new ≡ record profile.old { lines = profile.old.lines ++ line ∷ [] }) }
{
    match profile.add(line) {
        Ok(()) => Ok(()),
        Err(refused) => {
            prove!(refused.fault == AddFault::Memory);
            Err(AllocError)
        }
    }
}

/// The profile that a seed gives: so many lines of weight 1, each with an order of so many
/// alternatives. It fails only for want of memory.
pub fn drill_profile(
    alloc: Global,
    seed: u64,
    lines: u32,
    alternatives: u16,
) -> Result<Profile, AllocError>
    requires some { 1 ≤ alternatives }
    requires few { alternatives ≤ 128 }
    requires lines { lines ≤ 100000 }
    ensures { IfOk result (λ profile. profile ≡ drill_votes seed lines alternatives) }
{
    let mut draws = Draws { state: seed };
    let mut profile = Profile::new(alloc, alternatives);
    for _ in 0..lines {
        let order = drawn_order(alloc, &mut draws, alternatives)?;
        let ballot = Ballot::of(alloc, order)?;
        let line = Entry {
            weight: 1,
            order: ballot,
        };
        add_faultless(&mut profile, line)?;
    }
    Ok(profile)
}
