//! A seat of the machine of several workers.

ghost use Rattle.std.specs.Prelude.{◌≡◌, ◌==◌, ◌&&◌, ◌+◌, ◌<◌, ◌^◌, not, nat_lt, nat_le, suc, false, true, None, [], ◌++◌, length, IfOk};
ghost use Rattle.std.specs.List.{range_with_len};
ghost use Rattle.run_core.specs.Hand.{marked};
ghost use Rattle.run_core.specs.State.{fresh, highest, lowest, without};
ghost use Rattle.run_core.specs.Schedule.{is_named};
ghost use Rattle.run_core.specs.Effects.{won, later, learnt, rested, kept, given, joined, nobody};
ghost use Rattle.run_core.specs.SeatCode.{with_reads};

use entry_code::Reads;
use std::alloc::{AllocError, Global};
use std::marker::Model;

/// A ticket that a seat works at, the readings taken for it, and whether its entry was published.
#[derive(Drop)]
pub(crate) struct CoreHand {
    pub(crate) ticket: u64,
    pub(crate) reads: Reads,
    pub(crate) published: bool,
}

impl Model for CoreHand {
    ghost use Rattle.run_core.specs.Hand.{Hand};

    ghost Value = { Hand };

    ghost view = { λ h. record { ticket = h.ticket; reads = h.reads.list; published = h.published } };
}

/// A seat: its worker numbers, how many entries it knows, the greatest ticket number it has seen, its hand, its idle mark, and its
/// counts of tickets claimed and of steps published.
#[derive(Drop)]
pub(crate) struct CoreSeat {
    pub(crate) numbers: Vec<u32>,
    pub(crate) known: u32,
    pub(crate) seen: u64,
    pub(crate) hand: Option<CoreHand>,
    pub(crate) idle: bool,
    pub(crate) claims: u64,
    pub(crate) published: u64,
}

impl Model for CoreSeat {
    ghost use Rattle.run_core.specs.State.{Seat};

    ghost Value = { Seat };

    ghost view = { λ s. record {
      numbers = s.numbers.items;
      known = s.known;
      seen = s.seen;
      hand = s.hand;
      idle = s.idle;
      claims = s.claims;
      published = s.published;
    } };
}

/// The least of some numbers.
fn least(numbers: &[u32]) -> u32
    requires { 0 < length numbers.now }
    ensures { result ≡ lowest numbers.now }
{
    let mut i = numbers.len() - 1;
    let mut least = numbers[i];
    while i > 0 {
        i -= 1;
        least = numbers[i].min(least);
    }
    least
}

/// The greatest of some numbers, or 0 where there is none.
fn greatest(numbers: &[u32]) -> u32
    ensures { result ≡ highest numbers.now }
{
    let mut i = numbers.len();
    let mut greatest = 0;
    while i > 0 {
        i -= 1;
        greatest = numbers[i].max(greatest);
    }
    greatest
}

/// The numbers from 0 on.
fn first_numbers(alloc: Global, workers: u32) -> Result<Vec<u32>, AllocError>
    ensures { IfOk result (λ l. l.items ≡ range_with_len 0 workers) }
{
    let mut numbers = Vec::new(alloc);
    for i in 0..workers {
        numbers.push(i)?;
    }
    Ok(numbers)
}

/// The numbers of two lists.
fn both(alloc: Global, first: &[u32], second: &[u32]) -> Result<Vec<u32>, AllocError>
    ensures { IfOk result (λ l. l.items ≡ first.now ++ second.now) }
{
    let mut numbers = Vec::from_slice(alloc, first)?;
    numbers.extend_from_slice(second)?;
    Ok(numbers)
}

/// Takes the first `number` out of a list.
fn take_out(numbers: &mut Vec<u32>, number: u32)
    ensures { numbers.new.items ≡ without number numbers.old.items }
{
    let mut i = 0;
    while i < numbers.len() && numbers[i] != number {
        i += 1;
    }
    if i < numbers.len() {
        numbers.remove(i);
    }
}

impl CoreSeat {
    /// The seat with all numbers, which has done nothing.
    pub(crate) fn fresh(alloc: Global, workers: u32) -> Result<CoreSeat, AllocError>
        ensures { IfOk result (λ v. v ≡ fresh (range_with_len 0 workers)) }
    {
        let numbers = first_numbers(alloc, workers)?;
        Ok(CoreSeat::without_work(numbers, 0, 0, false))
    }

    /// A seat that has done nothing.
    fn without_work(numbers: Vec<u32>, known: u32, seen: u64, idle: bool) -> CoreSeat
        ensures { result ≡ record {
          numbers = numbers.items;
          known = known;
          seen = seen;
          hand = None;
          idle = idle;
          claims = 0;
          published = 0;
        } }
    {
        CoreSeat {
            numbers,
            known,
            seen,
            hand: None,
            idle,
            claims: 0,
            published: 0,
        }
    }

    /// What is left of a seat that was joined away.
    pub(crate) fn nobody(alloc: Global) -> CoreSeat
        ensures { result ≡ nobody }
    {
        CoreSeat::without_work(Vec::new(alloc), 0, 0, true)
    }

    /// Whether the seat has a name, which is its least number.
    pub(crate) fn is_named(&self, name: u32) -> bool
        ensures { result ≡ is_named name self.now.numbers }
    {
        if self.numbers.is_empty() {
            return false;
        }
        name == least(&self.numbers)
    }

    /// Whether it may claim, where so many tickets are known.
    pub(crate) fn may_claim(&self, busy: bool, tickets: u64) -> bool
        ensures { result ≡ (not busy && (length self.now.numbers == 1 && nat_lt self.now.seen tickets)) }
    {
        let alone = self.numbers.len() == 1;
        let left = self.seen < tickets;
        !busy && alone && left
    }

    /// Whether it may rest, where there are so many entries, and so many tickets are known.
    pub(crate) fn may_rest(&self, busy: bool, entries: usize, tickets: u64) -> bool
        ensures { result ≡ (self.now.known == entries && (not busy && nat_le tickets self.now.seen)) }
    {
        let all = self.known as usize == entries;
        let none = tickets <= self.seen;
        all && !busy && none
    }

    /// Whether it may give a number away.
    pub(crate) fn may_give(&self, busy: bool, number: u32) -> bool
        ensures { result ≡ (not busy && (nat_lt 1 (length self.now.numbers) && number == highest self.now.numbers)) }
    {
        let several = 1 < self.numbers.len();
        let last = number == greatest(&self.numbers);
        !busy && several && last
    }

    /// Claims the ticket that it has seen, with no readings yet.
    pub(crate) fn win(&mut self, reads: Reads)
        requires reads { reads.list ≡ [] }
        requires seen { self.old.seen + 1 < 2 ^ 64 }
        requires claims { self.old.claims + 1 < 2 ^ 64 }
        ensures { self.new ≡ won self.old }
    {
        self.hand = Some(CoreHand {
            ticket: self.seen,
            reads,
            published: false,
        });
        self.seen += 1;
        self.idle = false;
        self.claims += 1;
    }

    /// Sees a ticket number.
    pub(crate) fn see(&mut self, ticket: u64)
        ensures { self.new ≡ later ticket self.old }
    {
        self.seen = ticket;
    }

    /// Its hand has these readings.
    pub(crate) fn read(&mut self, reads: Reads)
        ensures { self.new ≡ record self.old { hand = with_reads reads.list self.old.hand } }
    {
        if let Some(hand) = &mut self.hand {
            hand.reads = reads;
        }
    }

    /// Knows one more entry.
    pub(crate) fn learn(&mut self)
        requires { self.old.known + 1 < 2 ^ 32 }
        ensures { self.new ≡ learnt self.old }
    {
        self.known += 1;
        self.idle = false;
    }

    /// Is idle.
    pub(crate) fn rest(&mut self)
        ensures { self.new ≡ rested self.old }
    {
        self.idle = true;
    }

    /// Knows one more entry, which is its own, made in so many steps.
    pub(crate) fn publish(&mut self, steps: u64)
        requires known { self.old.known + 1 < 2 ^ 32 }
        requires published { self.old.published + steps < 2 ^ 64 }
        ensures { self.new ≡ record self.old { known = suc self.old.known; hand = marked self.old.hand; published = self.old.published + steps } }
    {
        self.known += 1;
        self.published += steps;
        if let Some(hand) = &mut self.hand {
            hand.published = true;
        }
    }

    /// Has its greatest number no more.
    pub(crate) fn give(&mut self)
        ensures { self.new ≡ kept self.old }
    {
        let number = greatest(&self.numbers);
        take_out(&mut self.numbers, number);
    }

    /// A new seat, with the greatest number of this one.
    pub(crate) fn given(&self, alloc: Global) -> Result<CoreSeat, AllocError>
        ensures { IfOk result (λ v. v ≡ given self.now) }
    {
        let mut numbers = Vec::new(alloc);
        numbers.push(greatest(&self.numbers))?;
        Ok(CoreSeat::without_work(numbers, self.known, self.seen, false))
    }

    /// The two seats in one.
    pub(crate) fn joined(&self, alloc: Global, other: &CoreSeat) -> Result<CoreSeat, AllocError>
        requires claims { self.now.claims + other.now.claims < 2 ^ 64 }
        requires published { self.now.published + other.now.published < 2 ^ 64 }
        ensures { IfOk result (λ v. v ≡ joined self.now other.now) }
    {
        Ok(CoreSeat {
            numbers: both(alloc, &self.numbers, &other.numbers)?,
            known: self.known.max(other.known),
            seen: self.seen.max(other.seen),
            hand: None,
            idle: self.idle && other.idle,
            claims: self.claims + other.claims,
            published: self.published + other.published,
        })
    }
}
