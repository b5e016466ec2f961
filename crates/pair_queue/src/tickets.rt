//! Tickets: first come the generators, then the pairs of the first two entries, of the first three, and so on.

ghost use Rattle.std.specs.Prelude.{◌≡◌, ◌+◌, ◌-◌, ◌*◌, ◌/◌, ◌<◌, ◌≤◌, ◌^◌};
ghost use Rattle.mora_law.specs.Tickets.{HasTicket, ticket_of, total};
ghost use Rattle.mora_law.specs.Items.{item_of};

use entry_code::Item;

/// The greatest number of entries whose tickets are read back.
pub const MAX_ENTRIES: u32 = 4096;

/// How many tickets `m` generators and `len` entries have.
pub fn total(m: u32, len: u32) -> u64
    ensures { result ≡ total m len }
{
    u64::from(m) + pairs(u64::from(len))
}

/// The number of an item's ticket.
pub fn ticket_of(m: u32, item: Item) -> u64
    requires { HasTicket m item }
    ensures { result ≡ ticket_of m item }
{
    match item {
        Item::Generator(g) => u64::from(g),
        Item::Pair(i, j) => u64::from(m) + pairs(u64::from(j)) + u64::from(i),
    }
}

/// The item whose ticket has this number. It costs twelve products for a pair, and none for a generator.
pub fn item_of(m: u32, ticket: u64) -> Item
    requires { ticket < total m MAX_ENTRIES }
    ensures value { result ≡ item_of m ticket }
{
    let generators = u64::from(m);
    if ticket < generators {
        return Item::Generator(ticket as u32);
    }
    let rest = ticket - generators;
    let second = second_of(rest);
    Item::Pair((rest - pairs(second)) as u32, second as u32)
}

/// How many pairs so many entries have.
fn pairs(entries: u64) -> u64
    requires { entries < 2 ^ 32 }
    ensures value { result ≡ entries * (entries - 1) / 2 }
    ensures small { result < 2 ^ 63 }
{
    entries * entries.saturating_sub(1) / 2
}

/// The second number of the pair that has so many pairs before it, by halving the numbers it may be among.
fn second_of(before: u64) -> u64
    requires { before < MAX_ENTRIES * (MAX_ENTRIES - 1) / 2 }
    ensures some { 1 ≤ result }
    ensures small { result < MAX_ENTRIES }
    ensures low { result * (result - 1) / 2 ≤ before }
    ensures high { before < result * (result - 1) / 2 + result }
{
    let mut low = 1;
    let mut high = u64::from(MAX_ENTRIES);
    while high - low > 1 {
        let middle = (low + high) / 2;
        if pairs(middle) <= before {
            low = middle;
        } else {
            high = middle;
        }
    }
    low
}
