//! What every state keeps, whoever steps when. Each law is a call that does nothing, and whose contract is the law.

ghost use Rattle.std.specs.Prelude.{◌≡◌, ◌≢◌, ◌+◌, ◌<◌, ◌≤◌, ℕ, suc, min, true, false, List, [], ◌∷◌, ◌++◌, length, Option};
ghost use Rattle.local_order.specs.Mono.{degree};
ghost use Rattle.sparse_poly.specs.Ideal.{Problem, IsInIdeal};
ghost use Rattle.entry_code.specs.Entry.{Entry};
ghost use Rattle.mora_law.specs.Ring.{numbering_of, IsAdmissible};
ghost use Rattle.mora_law.specs.declared.step_end.StepEnd.TheVariants.{Stuck};
ghost use Rattle.mora_law.specs.Run.{last_known};
ghost use Rattle.mora_law.specs.Entries.{corner};
ghost use Rattle.mora_law.specs.Tickets.{total};
ghost use Rattle.mora_law.specs.Examples.{racing_entries};
ghost use Rattle.run_core.specs.declared.event.Event.{Event};
ghost use Rattle.run_core.specs.declared.event.Event.TheVariants.{Claim, Corner, Publish};
ghost use Rattle.run_core.specs.Hand.{Hand, hand_of, has_open, hand_end, reads_of, read, draft, marked};
ghost use Rattle.run_core.specs.State.{Seat, State, IsAt, count_of, known_by, is_busy, lowest, opening};
ghost use Rattle.run_core.specs.Effects.{draft_by};
ghost use Rattle.run_core.specs.Sound.{IsSound};
ghost use Rattle.run_core.specs.Makes.{CanPublish, Makes};
ghost use Rattle.run_core.specs.Schedule.{Action, next, after};
ghost use Rattle.run_core.specs.Example.{race};
ghost use Rattle.run_core.specs.Plain.{Plain, plain_opening, is_working, plain_end, plain_claimed, plain_cornered, plain_published, plain};
ghost use Rattle.run_core.specs.Within.{IsWithin};
ghost use Rattle.run_core.specs.Idle.{AllIdle, SettlesAll, IsKnown, HasAll, IsLast};

/// Every event of every seat takes a sound state to a sound one.
pub fn keeps_sound()
    ensures { (s : State) (t : State) (i : ℕ) (e : Event) → IsSound s → Makes e s i t → IsSound t }
{}

/// The event of the seat with a name makes exactly what the event can make at the place of that seat.
pub fn names_are_places()
    ensures only { (s : State) (t : State) (name : ℕ) (e : Event) → next name e s ≡ Some t
        → (i : ℕ) × (v : Seat) × IsAt s i v × (v.numbers ≢ []) × (name ≡ lowest v.numbers) × Makes e s i t }
    ensures each { (s : State) (t : State) (i : ℕ) (v : Seat) (e : Event) → IsSound s → IsAt s i v → v.numbers ≢ [] → Makes e s i t
        → next (lowest v.numbers) e s ≡ Some t }
{}

/// What a sound state tells of one seat.
pub fn seats_are_within()
    ensures { (s : State) (i : ℕ) (v : Seat) → IsSound s → IsAt s i v → IsWithin s v }
{}

/// A seat that knows the whole list, and whose run is stuck by a last reading that knew it all, may publish: its hand is open.
pub fn publishes_with_an_open_hand()
    ensures { (s : State) (i : ℕ) (v : Seat) → IsSound s → IsAt s i v → v.known ≡ length s.entries
        → hand_end s.problem (known_by s v) v.hand ≡ Some Stuck → last_known 0 (reads_of v.hand) ≡ v.known → CanPublish s v }
{}

/// A seat that was joined away, which has no numbers, makes no event.
pub fn spent_seats_rest()
    ensures { (s : State) (t : State) (i : ℕ) (v : Seat) (e : Event) → IsSound s → IsAt s i v → v.numbers ≡ [] → Makes e s i t → ⊥ }
{}

/// Over the whole list a seat's hand is open exactly where it is over the entries that the seat knows, and its run ends alike.
pub fn hands_read_alike()
    ensures opened { (s : State) (i : ℕ) (v : Seat) → IsSound s → IsAt s i v → has_open s.problem s.entries v.hand ≡ is_busy s v }
    ensures ends { (s : State) (i : ℕ) (v : Seat) → IsSound s → IsAt s i v → hand_end s.problem s.entries v.hand ≡ hand_end s.problem (known_by s v) v.hand }
{}

/// The corner never rises when entries are added.
pub fn corner_never_rises()
    ensures { (P : Problem) (entries : List Entry) (more : List Entry) → IsAdmissible P → corner P (entries ++ more) ≤ corner P entries }
{}

/// Every monomial from the corner on is in the ideal.
pub fn cut_terms_are_members()
    ensures { (s : State) (m : List ℕ) → IsSound s → length m ≡ s.problem.n → degree m ≤ s.problem.d
        → s.corner ≤ (numbering_of s.problem).rank m → IsInIdeal s.problem (record { mono = m; coef = 1 } ∷ []) }
{}

/// A draft that may be published has at most as many readings and terms in all as there are monomials, and one more. There is a
/// place for it.
pub fn drafts_have_room()
    ensures { (s : State) (i : ℕ) (v : Seat) → IsSound s → IsAt s i v → CanPublish s v
        → (length (draft_by s v).reads + length (draft_by s v).terms ≤ count_of s.problem + 1) × (v.known < count_of s.problem) }
{}

/// What the run of a seat makes that is stuck has at most as many readings as there are monomials, at most as many terms, and at most one
/// more of both in all, whatever others have published.
pub fn stuck_hands_have_room()
    ensures { (s : State) (i : ℕ) (v : Seat) → IsSound s → IsAt s i v → hand_end s.problem (known_by s v) v.hand ≡ Some Stuck
        → (length (draft_by s v).reads ≤ count_of s.problem) × (length (draft_by s v).terms ≤ count_of s.problem)
        × (length (draft_by s v).reads + length (draft_by s v).terms ≤ count_of s.problem + 1) }
{}

/// A hand has at most as many readings as there are monomials, and one more.
pub fn hands_have_room()
    ensures { (s : State) (i : ℕ) (v : Seat) (h : Hand) → IsSound s → IsAt s i v → v.hand ≡ Some h → length h.reads ≤ count_of s.problem + 1 }
{}

/// The opening state is sound.
pub fn opening_is_sound()
    ensures { (P : Problem) (workers : ℕ) → IsAdmissible P → 1 ≤ workers → IsSound (opening P workers) }
{}

/// After every schedule from the opening state the state is sound. Each prefix of a schedule is a schedule.
pub fn every_schedule()
    ensures { (P : Problem) (workers : ℕ) (schedule : List Action) → IsAdmissible P → 1 ≤ workers → IsSound (after (opening P workers) schedule) }
{}

/// Where all seats are idle, every ticket is settled, and some seat knows the whole list.
pub fn idle_settles()
    ensures settled { (s : State) → IsSound s → AllIdle s → SettlesAll s.problem s.entries }
    ensures known { (s : State) → IsSound s → AllIdle s → IsKnown s }
{}

/// The last seat, which has all numbers and is idle, knows the whole list, and its counts are those of all.
pub fn last_idle()
    ensures { (s : State) (i : ℕ) (v : Seat) → IsSound s → IsAt s i v → HasAll s v → v.idle ≡ true → IsLast s v }
{}

/// With one worker, which always knows the whole list and the ticket word, what each call of the board does is an event of the only
/// seat. Once there is no ticket left, every ticket is settled.
pub fn one_worker()
    ensures opens { (P : Problem) → IsAdmissible P → IsSound (plain (plain_opening P)) }
    ensures claims { (b : Plain) → is_working b ≡ false → b.ticket < total (length b.problem.gens) (length b.entries)
        → Makes Claim (plain b) 0 (plain (plain_claimed b)) }
    ensures reads { (b : Plain) → is_working b ≡ true → Makes Corner (plain b) 0 (plain (plain_cornered b)) }
    ensures publishes { (b : Plain) → is_working b ≡ true → plain_end b ≡ Some Stuck → last_known 0 (reads_of b.hand) ≡ length b.entries
        → Makes Publish (plain b) 0 (plain (plain_published b)) }
    ensures settles { (b : Plain) → IsSound (plain b) → is_working b ≡ false → total (length b.problem.gens) (length b.entries) ≤ b.ticket
        → SettlesAll b.problem b.entries × (b.ticket ≡ total (length b.problem.gens) (length b.entries)) }
{}

/// A worked example. The second seat knows x^2 alone, and reads the corner of x^2 and y^2; the entries that come about are legal all the
/// same. Then the first seat has nothing to publish, and there is no seat with the name 7.
pub fn worked_example()
    ensures entries { race.entries ≡ racing_entries }
    ensures corner { race.corner ≡ 5 }
    ensures ticket { race.ticket ≡ 4 }
    ensures nothing_to_publish { next 0 Publish race ≡ None }
    ensures no_such_seat { next 7 Claim race ≡ None }
{}
