ghost use Rattle.std.specs.Prelude.{◌≡◌};

/// What a link has for the next place where a chain ends. It is the number of no place.
pub(crate) const END: u32 = u32::MAX;

/// What the link of a place that isn't noted has for the next place. Neither this number nor `END` can be
/// noted as a place.
const FREE: u32 = u32::MAX - 1;

/// What an index keeps of a place: the hash that it is noted under and the next place of its chain, or that
/// it isn't noted.
#[derive(Clone, Copy)]
pub struct Link {
    hash: u32,
    next: u32,
}

impl Link {
    ghost use Rattle.place_index.specs.Chains.{free_link, is_noted};

    /// The link of a place that isn't noted.
    #[inline(always)]
    pub(crate) fn free() -> Self
        ensures { result ≡ free_link }
    {
        Link {
            hash: 0,
            next: FREE,
        }
    }

    /// The link of a place that is noted under `hash`, before the place `next` in its chain.
    #[inline(always)]
    pub(crate) fn noted(hash: u32, next: u32) -> Self
        ensures { result ≡ record { hash = hash; next = next } }
    {
        Link { hash, next }
    }

    /// Whether the link's place is noted.
    #[inline(always)]
    pub(crate) fn is_noted(self) -> bool
        ensures { result ≡ is_noted self }
    {
        self.next != FREE
    }

    /// The hash under which the link's place is noted.
    #[inline(always)]
    pub(crate) fn hash(self) -> u32
        ensures { result ≡ self.hash }
    {
        self.hash
    }

    /// The place after the link's place in its chain, or `END` where that is the last one.
    #[inline(always)]
    pub(crate) fn next(self) -> u32
        ensures { result ≡ self.next }
    {
        self.next
    }

    /// Makes `next` the place after the link's place in its chain.
    #[inline(always)]
    pub(crate) fn set_next(&mut self, next: u32)
        ensures { self.new ≡ record { hash = self.old.hash; next = next } }
    {
        self.next = next;
    }
}
