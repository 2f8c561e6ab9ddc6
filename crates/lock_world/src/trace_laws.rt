//! What traces tell, in every World that a list of events leads to: of the episodes of a session, of what it
//! has in hand, and of the words that it loaded. Each function here is a law: its clause is proved, and its
//! body is empty.

ghost use Rattle.std.specs.Prelude.{◌≡◌, ◌⊎◌, ◌<◌, ◌+◌, ◌^◌, ℕ, List, [], ◌∷◌, ◌++◌, true, false, Some, None, slice_get};
ghost use Rattle.modes_core.specs.declared.modes.Mode.{Mode};
ghost use Rattle.modes_core.specs.declared.tags.Tag.{Tag};
ghost use Rattle.modes_core.specs.Tag.{partition_of};
ghost use Rattle.lock_world.specs.declared.events.Event.{Event};
ghost use Rattle.lock_world.specs.declared.events.Step.{Step};
ghost use Rattle.lock_world.specs.declared.events.Word.{Word};
ghost use Rattle.lock_table.specs.Content.{Content};
ghost use Rattle.lw_word.specs.SlotWord.{shows};
ghost use Rattle.lock_world.specs.SlotHolds.{relation_of};
ghost use Rattle.lock_world.specs.World.{World, TraceEntry, Took, Episode, AskedToCancel, Loaded, opening, word_in};
ghost use Rattle.lock_world.specs.Happens.{Happens, RunsThrough, last_of};
ghost use Rattle.lock_world.specs.Telling.{TellsWhatIs};
ghost use Rattle.lock_world.specs.Safe.{taken_by, taken_in, IsOneMove};
ghost use Rattle.lock_world.specs.SafeWorld.{SafeWorld, slots_of};
ghost use Rattle.lock_world.specs.Headline.{stands_with};
ghost use Rattle.lock_world.specs.Listing.{StandsThereOrInContent, TellsHold};

/// In a safe World each episode of a trace put what one move of its session, on an object of the partition,
/// makes of the content that the session took: an earlier entry took just that content, and the session had
/// it in hand until then. An adopt makes of it that content with more holds of one session, such as fast-path
/// slots can have, on objects of the partition.
pub fn each_episode_is_one_move()
    ensures moved { (w : World) → SafeWorld w →
        (session p : ℕ) (taken put_back : Content) (before after : List TraceEntry) →
        w.sessions.trace session ≡ before ++ Episode p taken put_back ∷ after →
        (taken_by (λ _. None) before p ≡ Some taken) × IsOneMove p taken session put_back }
    ensures was_taken { (p : ℕ) (taken : Content) (before : List TraceEntry) →
        taken_by (λ _. None) before p ≡ Some taken →
        (first : List TraceEntry) × (since : List TraceEntry) × (before ≡ first ++ Took p taken ∷ since) }
{}

/// In a safe World a trace shows what its session has in hand: of each partition the content as it took it,
/// and nothing where the partition is at home or in another's hand.
pub fn traces_tell_what_is_in_hand()
    ensures { (w : World) → SafeWorld w → (session p : ℕ) →
        taken_by (λ _. None) (w.sessions.trace session) p ≡ taken_in (w.contents.hand p) session }
{}

/// A listing that loads slots first and takes partitions later misses no hold that lasts throughout. Let a
/// load of a slot not show a hold which is then in that slot or in a content, and let it be in a slot or in a
/// content in each World of a run from then on: the session that takes its object's partition next gets a
/// content that has it. So the hold is in that content all the way, and each session that takes a partition
/// takes just the content that is there.
pub fn a_listing_misses_no_hold_that_stands()
    ensures misses_none { (w v u : World) (lister session place shown taker : ℕ) (tag : Tag) (mode : Mode)
        (events : List Event) (worlds : List World) → SafeWorld w →
        Happens w (record { session = lister; step = Step.LoadWord (Word.Slot session place) shown }) v →
        shows shown (relation_of tag) mode ≡ false → StandsThereOrInContent v session tag mode place →
        RunsThrough v events worlds →
        ((later : ℕ) (z : World) → slice_get worlds later ≡ Some z → stands_with z session tag mode ≡ true) →
        Happens (last_of v worlds)
        (record { session = taker; step = Step.TakeExclusive (Word.Partition (partition_of tag)) }) u →
        TellsHold (last_of v worlds) u taker session tag mode }
    ensures stays_in_content { (w : World) (events : List Event) (worlds : List World)
        (session : ℕ) (tag : Tag) (mode : Mode) → SafeWorld w → RunsThrough w events worlds →
        (w.contents.now (partition_of tag)).holds session tag mode ≡ true →
        ((place : ℕ) (u : World) → slice_get worlds place ≡ Some u →
        (slots_of u.words.database u.words.slot session tag mode ≡ true)
        ⊎ ((u.contents.now (partition_of tag)).holds session tag mode ≡ true)) →
        (place : ℕ) (u : World) → slice_get worlds place ≡ Some u →
        (u.contents.now (partition_of tag)).holds session tag mode ≡ true }
    ensures taken { (w v : World) (session p : ℕ) →
        Happens w (record { session = session; step = Step.TakeExclusive (Word.Partition p) }) v →
        v.sessions.trace session ≡ w.sessions.trace session ++ Took p (w.contents.now p) ∷ [] }
{}

/// What an event adds to the trace of its session is true: a load in the trace has the word as it was, a
/// request to a session to cancel its wait has the wait word before that, and the content that an episode put
/// is the partition's after it. So of each entry of a trace at the end of a run: a World on the way had in
/// the trace just what is before the entry, and there, or in the next World, the entry was true.
pub fn a_trace_tells_what_was_there()
    ensures loaded { (w v : World) (event : Event) (word : Word) (shown : ℕ) → Happens w event v →
        v.sessions.trace event.session ≡ w.sessions.trace event.session ++ Loaded word shown ∷ [] →
        shown ≡ word_in w.words word }
    ensures asked { (w v : World) (event : Event) (other before : ℕ) → Happens w event v →
        v.sessions.trace event.session ≡ w.sessions.trace event.session ++ AskedToCancel other before ∷ [] →
        before ≡ w.words.wait other }
    ensures put { (w v : World) (event : Event) (partition : ℕ) (taken put_back : Content) → Happens w event v →
        v.sessions.trace event.session ≡ w.sessions.trace event.session ++ Episode partition taken put_back ∷ [] →
        put_back ≡ v.contents.now partition }
    ensures on_the_way { (limit groups : ℕ) (events : List Event) (worlds : List World) (session : ℕ)
        (before after : List TraceEntry) (entry : TraceEntry) →
        limit < 2 ^ 24 → RunsThrough (opening limit groups) events worlds →
        (last_of (opening limit groups) worlds).sessions.trace session ≡ before ++ entry ∷ after →
        (place : ℕ) × (u : World) × (next : World) × (slice_get (opening limit groups ∷ worlds) place ≡ Some u)
        × (slice_get worlds place ≡ Some next) × (u.sessions.trace session ≡ before) × TellsWhatIs u next entry }
{}
